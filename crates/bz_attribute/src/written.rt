//! Parts that commands write. Their texts are copied into the arena of the list.

ghost use Rattle.std.specs.Prelude.{◌≡◌, ◌++◌, ◌∷◌, [], OnOk, codes, map};
ghost use Rattle.bz_token.specs.declared.token.Kind.TheVariants.{Identifier, Operator, String as StringKind};
ghost use Rattle.bz_tree.specs.Tree.{segs_of};
ghost use Rattle.bz_tree.specs.Rows.{a_token, part_view, segs_parts};
ghost use Rattle.bz_label.specs.Values.{quoted};
ghost use Rattle.bz_attribute.specs.Effects.{string};

use bz_label::quote;
use bz_memory::{NoMemory, alloc_str, push};
use bz_token::Kind;
use bz_tree::{Part, Parts};
use std::alloc::Global;

/// Appends a token. `Err`: memory was refused.
pub fn push_token(kind: Kind, text: &str, written: &mut Parts<'_>) -> Result<(), NoMemory>
    ensures { OnOk result
        (map part_view written.new.items ≡ map part_view written.old.items ++ a_token kind text.now ∷ []) }
{
    let bump = *written.allocator();
    let text = alloc_str(bump, text)?;
    push(written, Part::Token(kind, text))
}

/// Appends the literal of a string. `Err`: memory was refused.
pub fn push_string(alloc: Global, value: &str, written: &mut Parts<'_>) -> Result<(), NoMemory>
    ensures { OnOk result (map part_view written.new.items
        ≡ map part_view written.old.items ++ a_token StringKind (quoted value.now) ∷ []) }
{
    let literal = quote(alloc, value)?;
    push_token(Kind::String, literal.as_str(), written)
}

/// Appends an element that is a string. `Err`: memory was refused, and its literal may have been appended.
pub fn push_element(alloc: Global, value: &str, written: &mut Parts<'_>) -> Result<(), NoMemory>
    ensures { OnOk result (map part_view written.new.items
        ≡ map part_view written.old.items ++ segs_parts (segs_of (string value.now ∷ []))) }
{
    push_string(alloc, value, written)?;
    push(written, Part::End)
}

/// Appends the name of an argument and its equals sign. `Err`: memory was refused, and the name may have been appended.
pub fn begin_argument(name: &str, written: &mut Parts<'_>) -> Result<(), NoMemory>
    ensures { OnOk result (map part_view written.new.items
        ≡ map part_view written.old.items
        ++ (a_token Identifier name.now ∷ a_token Operator (codes "=") ∷ [])) }
{
    push_token(Kind::Identifier, name, written)?;
    push(written, Part::Token(Kind::Operator, "="))
}
