//! What a command did to a statement.

ghost use Rattle.std.specs.Prelude.{◌≡◌, None, IfOk, Some, false};
ghost use Rattle.bz_attribute.specs.declared.done.Note.TheVariants.{AttributeExists, NoAttribute, NoValue, NotAList};
ghost use Rattle.bz_attribute.specs.Reports as spec;

use bz_label::Text;
use bz_memory::NoMemory;
use std::alloc::Global;

/// What an execution of a command did. `Err`: memory was refused.
pub type Executed = Result<Done, NoMemory>;

/// What an execution of a command did.
#[derive(Drop)]
pub struct Done {
    /// The statement differs from what it was.
    pub changed: bool,
    /// What `print` printed.
    pub line: Option<Text>,
    pub note: Option<Note>,
}

/// Why a command did nothing, or, for `Missing`, what it could not print.
#[derive(PartialEq, Eq, Drop)]
pub enum Note {
    /// The first field of `print` that is missing.
    Missing(Text),
    /// The attribute is absent.
    NoAttribute(Text),
    /// There is an attribute of the new name.
    AttributeExists(Text),
    /// The attribute has no list part.
    NotAList(Text),
    /// No element of the attribute equals the value.
    NoValue { attr: Text, value: Text },
}

impl Done {
    pub fn quiet(changed: bool) -> Done
        ensures { result ≡ spec.done None changed }
    {
        Done {
            changed,
            line: None,
            note: None,
        }
    }

    /// Nothing was done, for this reason.
    pub fn noted(note: Note) -> Done
        ensures { result ≡ spec.done (Some note) false }
    {
        Done {
            changed: false,
            line: None,
            note: Some(note),
        }
    }

    /// The failure where the attribute is absent.
    pub fn no_attribute(alloc: Global, attr: &str) -> Executed
        ensures { IfOk result (λ done. done ≡ spec.done (Some (NoAttribute attr.now)) false) }
    {
        Ok(Done::noted(Note::NoAttribute(Text::from_str(alloc, attr)?)))
    }

    /// The failure where there is an attribute of the new name.
    pub fn attribute_exists(alloc: Global, attr: &str) -> Executed
        ensures { IfOk result (λ done. done ≡ spec.done (Some (AttributeExists attr.now)) false) }
    {
        Ok(Done::noted(Note::AttributeExists(Text::from_str(alloc, attr)?)))
    }

    /// The failure where the attribute has no list part.
    pub fn not_a_list(alloc: Global, attr: &str) -> Executed
        ensures { IfOk result (λ done. done ≡ spec.done (Some (NotAList attr.now)) false) }
    {
        Ok(Done::noted(Note::NotAList(Text::from_str(alloc, attr)?)))
    }

    /// The failure where no element of the attribute equals the value.
    pub fn no_value(alloc: Global, attr: &str, value: &str) -> Executed
        ensures { IfOk result (λ done. done ≡ spec.done (Some (NoValue attr.now value.now)) false) }
    {
        let attr = Text::from_str(alloc, attr)?;
        let value = Text::from_str(alloc, value)?;
        Ok(Done::noted(Note::NoValue { attr, value }))
    }
}
