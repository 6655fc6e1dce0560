//! What commands on one rule take as their arguments.

use crate::list::{Seq, Text};

/// The attributes that a command speaks of.
#[derive(Drop)]
pub enum Attributes {
    /// All of them, written `*`.
    Every,
    Named(Text),
}

/// What `set` sets.
#[derive(Drop)]
pub enum Setting {
    /// The kind of the rule.
    ToKind(Text),
    /// An attribute, to one or more values.
    ToValues(Text, Seq<Text>),
}

/// The elements that `move` moves; the definition of `remove` chooses elements by it too.
#[derive(Drop)]
pub enum Chosen {
    /// All of them, written `*`.
    All,
    Values(Seq<Text>),
}

/// What a comment stands before.
#[derive(Drop)]
pub enum Commented {
    Rule,
    Attribute(Text),
    /// The element of an attribute that equals a value.
    Value(Text, Text),
}
