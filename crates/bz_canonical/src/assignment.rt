//! An assignment that stands as it would be written.

ghost use Rattle.std.specs.Prelude.{◌<◌, IfSome};
ghost use Rattle.bz_canonical.specs.private.Statements.{IsAssignedFront};

use crate::value::after_nodes;

/// What follows the assignment to a name that ends here.
pub(crate) fn after_assignment(text: &[u8], depth: u8) -> Option<&[u8]>
    requires { depth < 255 }
    ensures { IfSome result (λ rest. IsAssignedFront depth text.now rest.now) }
{
    match text {
        [b' ', b'=', b' ', value @ ..] | [b' ', b'+', b'=', b' ', value @ ..] => {
            let read = after_nodes(value, 0, depth)?;
            Some(read.rest)
        }
        _ => None,
    }
}
