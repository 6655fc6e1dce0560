//! The words of a command of a certain form, for crates that know a rule by its text alone: which attribute it looks
//! at, and what it writes there.

ghost use Rattle.std.specs.Prelude.{◌≡◌, [], IfSome, Some, false};
ghost use Rattle.bz_token.specs.Common.{is_empty};
ghost use Rattle.bz_label.specs.declared.arguments.Attributes.TheVariants.{Named};
ghost use Rattle.bz_label.specs.declared.arguments.Commented.TheVariants.{Attribute};
ghost use Rattle.bz_label.specs.declared.arguments.Setting.TheVariants.{ToValues};
ghost use Rattle.bz_rule.specs.declared.command.Action.TheVariants.{Add, Comment, Print, Remove, Rename, Replace, Set};
ghost use Rattle.bz_rule.specs.Forms as spec;

use crate::command::{Action, Command};
use crate::commands::field::Field;
use bz_label::{Attributes, Commented, Setting, Text};

/// Values, and the attribute whose list has them or not, or that they are set to.
#[derive(Clone, Copy)]
pub struct AttributeValues<'c> {
    pub attr: &'c str,
    pub values: &'c [Text],
}

/// A value, what it becomes, and the attribute whose list has it or not.
#[derive(Clone, Copy)]
pub struct ReplacedValue<'c> {
    pub attr: &'c str,
    pub old: &'c Text,
    pub new: &'c str,
}

/// The name of an argument, and what it becomes.
#[derive(Clone, Copy)]
pub struct RenamedAttribute<'c> {
    pub old: &'c str,
    pub new: &'c str,
}

/// What `comment` puts above an attribute.
#[derive(Clone, Copy)]
pub struct AttributeComment<'c> {
    pub attr: &'c str,
    pub text: &'c str,
}

/// The values that a command writes or looks for.
#[derive(Clone, Copy)]
pub enum Values<'c> {
    Listed(&'c [Text]),
    /// An old value and a new one.
    Replaced(&'c str, &'c str),
    One(&'c str),
    None,
}

/// What the command prints, if it is `print`.
pub fn printed_by(command: &Command) -> Option<&[Field]>
    ensures { IfSome result (λ fields. command.now ≡ Print fields.now) }
{
    let Action::Print(fields) = &command.action else {
        return None;
    };
    Some(fields.as_slice())
}

/// The attribute without which the command leaves a rule as it is.
pub fn looked_at(command: &Command) -> Option<&str>
    ensures { IfSome result (λ attr. spec.looked_at command.now ≡ Some attr.now) }
{
    match &command.action {
        Action::Remove(Attributes::Named(attr), _)
        | Action::Replace(Attributes::Named(attr), _, _) => Some(attr.as_str()),
        _ => None,
    }
}

/// The attribute without which the command fails.
pub fn needed(command: &Command) -> Option<&str>
    ensures { IfSome result (λ attr. spec.needed command.now ≡ Some attr.now) }
{
    match &command.action {
        Action::Comment(Commented::Attribute(attr) | Commented::Value(attr, _), _) => Some(
            attr.as_str(),
        ),
        Action::Rename(old, _) => Some(old.as_str()),
        _ => None,
    }
}

/// The comment that the command puts above an attribute.
pub fn comment_by(command: &Command) -> Option<AttributeComment<'_>>
    ensures { IfSome result (λ new. command.now ≡ Comment (Attribute new.attr.now) new.text.now) }
{
    let Action::Comment(Commented::Attribute(attr), text) = &command.action else {
        return None;
    };
    Some(AttributeComment {
        attr: attr.as_str(),
        text: text.as_str(),
    })
}

/// The attribute that the command renames, and its new name.
pub fn renamed_by(command: &Command) -> Option<RenamedAttribute<'_>>
    ensures { IfSome result (λ renamed. command.now ≡ Rename renamed.old.now renamed.new.now) }
{
    let Action::Rename(from, to) = &command.action else {
        return None;
    };
    Some(RenamedAttribute {
        old: from.as_str(),
        new: to.as_str(),
    })
}

/// The value that the command replaces, and the other.
pub fn replaced_by(command: &Command) -> Option<ReplacedValue<'_>>
    ensures { IfSome result (λ replaced. command.now
        ≡ Replace (Named replaced.attr.now) replaced.old.now replaced.new.now) }
{
    let Action::Replace(Attributes::Named(attr), old, new) = &command.action else {
        return None;
    };
    Some(ReplacedValue {
        attr: attr.as_str(),
        old,
        new: new.as_str(),
    })
}

/// The values that the command removes: one at least.
pub fn removed_by(command: &Command) -> Option<AttributeValues<'_>>
    ensures command { IfSome result (λ old. command.now ≡ Remove (Named old.attr.now) old.values.now) }
    ensures some { IfSome result (λ old. is_empty old.values.now ≡ false) }
{
    let Action::Remove(Attributes::Named(attr), values) = &command.action else {
        return None;
    };
    let values @ [_, ..] = values.as_slice() else {
        return None;
    };
    Some(AttributeValues {
        attr: attr.as_str(),
        values,
    })
}

/// The attribute that the command removes, whatever its value is.
pub fn gone_by(command: &Command) -> Option<&str>
    ensures { IfSome result (λ attr. command.now ≡ Remove (Named attr.now) []) }
{
    let Action::Remove(Attributes::Named(attr), values) = &command.action else {
        return None;
    };
    let [] = values.as_slice() else {
        return None;
    };
    Some(attr.as_str())
}

/// The values that the command adds.
pub fn added_by(command: &Command) -> Option<AttributeValues<'_>>
    ensures { IfSome result (λ new. command.now ≡ Add new.attr.now new.values.now) }
{
    let Action::Add(attr, values) = &command.action else {
        return None;
    };
    Some(AttributeValues {
        attr: attr.as_str(),
        values: values.as_slice(),
    })
}

/// The values that the command sets an attribute to, whether that is there or not.
pub fn values_set_by(command: &Command) -> Option<AttributeValues<'_>>
    ensures { IfSome result (λ new. command.now ≡ Set (ToValues new.attr.now new.values.now)) }
{
    let Action::Set(Setting::ToValues(attr, values)) = &command.action else {
        return None;
    };
    Some(AttributeValues {
        attr: attr.as_str(),
        values: values.as_slice(),
    })
}

/// The argument that the command adds to a rule that has none of its name.
pub fn set_by(command: &Command) -> Option<AttributeValues<'_>>
    ensures { IfSome result (λ new. spec.set_by command.now ≡ Some (spec.new_of new)) }
{
    match &command.action {
        Action::Set(Setting::ToValues(attr, values)) | Action::SetIfAbsent(attr, values) => {
            Some(AttributeValues {
                attr: attr.as_str(),
                values: values.as_slice(),
            })
        }
        _ => None,
    }
}
