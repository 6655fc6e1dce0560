//! Texts in an arena.

ghost use Rattle.std.specs.Prelude.{◌≡◌, IfOk};

use crate::no_memory::{NoMemory, refused};
use bumpalo::Bump;

/// A copy of a text in an arena.
#[inline(always)]
pub fn alloc_str<'a>(bump: &'a Bump, text: &str) -> Result<&'a str, NoMemory>
    ensures { IfOk result (λ s. s.now ≡ text.now) }
{
    bump.try_alloc_str(text).map_err(refused)
}
