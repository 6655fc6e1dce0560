//! What a list and a text give back: the elements and the characters that they were made of.

use crate::checks::{check, check_value};
use bz_label::{Seq, Text};
use std::test::Fail;

#[test]
fn gives_back_a_text(rt: HostRuntime) -> Result<(), Fail> {
    let text = Text::from_str(rt.alloc(), "cc_library")?;
    check(&rt, "text", text.into_string().as_str(), "cc_library");
    Ok(())
}

#[test]
fn gives_back_a_list(rt: HostRuntime) -> Result<(), Fail> {
    let list = Seq::from_vec(vec![in rt.alloc(); 3u64, 1, 4]?);
    let values = list.into_vec();
    check_value(&rt, "list", &values.as_slice(), &[3, 1, 4].as_slice());
    Ok(())
}
