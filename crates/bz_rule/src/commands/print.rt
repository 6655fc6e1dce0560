//! `print`: a line with the texts of a rule's fields. bz_rule (`statement_row.rt`) calls `print`, and bz_engine
//! (`answer.rt`) calls `print_name` for a rule that it does not read.

ghost use Rattle.std.specs.Prelude.{◌≡◌, ◌≤◌, ◌++◌, ◌∷◌, [], ℕ, List, length, map, option_map, is_some, IfOk, IfSome, IsTrue, OnOk, bytes_eq, codes, string_bytes, false, true, None, Some};
ghost use Rattle.std.specs.List.{list_all, list_any};
ghost use Rattle.bz_tree.specs.Tree.{Item, Statement, items_of};
ghost use Rattle.bz_tree.specs.declared.tree.GroupKind.TheVariants.{RuleCall};
ghost use Rattle.bz_tree.specs.Rows.{items_parts, part_view};
ghost use Rattle.bz_label.specs.Values.{value_of};
ghost use Rattle.bz_rule.specs.declared.commands.field.Field.TheVariants.{ValueOf};
ghost use Rattle.bz_layout.specs.Layout.{flat_text};
ghost use Rattle.bz_attribute.specs.Elements.{ForRest, ForValue};
ghost use Rattle.bz_attribute.specs.Heads.{IsHeadOf};
ghost use Rattle.bz_attribute.specs.RowPlaces.{IsRuleRow};
ghost use Rattle.bz_attribute.specs.Rules.{Rule, name_in, rule_of, string_value};
ghost use Rattle.bz_attribute.specs.declared.done.Note.TheVariants.{Missing};
ghost use Rattle.bz_attribute.specs.Texts.{home_text};
ghost use Rattle.bz_rule.specs.Print as spec;
ghost use Rattle.bz_rule.specs.private.PrintSteps.{HasPrinted, HasStrings, is_special, is_name_alone};
ghost use Rattle.bz_rule.specs.Reports.{prints};
ghost use Rattle.bz_token.specs.Common.{map_or};

use crate::commands::field::Field;
use bz_attribute::{
    Done, Env, Executed, Head, Note, next_element, only_list, only_string, push_home, value_end,
    value_place,
};
use bz_label::{Package, Text, quote, read_value};
use bz_layout::flat_parts;
use bz_memory::{NoMemory, push_char, push_number, push_str, with_length_of};
use bz_tree::{GroupKind, Part};
use std::alloc::Global;

// Most lines are no longer, and are made without making room for more.
const LONG_LINE: &str =
    "//a/package/of/many/rules:the_name_of_a_rule cc_library [:another_rule //a/package/of/others:one_of_them \
     //a/third/package:a_rule @a_repository//and/its/package:a_rule]";

/// Prints fields of the rule of this head and these parts, or its name and its kind where none is named; the note names
/// the first field that is missing.
pub fn print(env: Env<'_>, fields: &[Field], head: Head<'_>, parts: &[Part<'_>]) -> Executed
    ensures { IfOk result (λ done. (s : Statement) (r : Rule) → IsHeadOf head.entry s
        → IsRuleRow s r (map part_view parts.now) → done ≡ prints env.entry.home.now fields.now (Some s)) }
{
    let mut line = with_length_of(env.alloc, LONG_LINE)?;
    let missing = match fields {
        [] => {
            let missing = push_attribute(env, "name", &mut line, head, parts)?;
            push_str(&mut line, " ")?;
            push_str(&mut line, head.kind)?;
            missing
        }
        _ => push_fields(env, &mut line, fields, head, parts)?,
    };
    let note = match missing {
        Some(name) => Some(Note::Missing(Text::from_str(env.alloc, name)?)),
        None => None,
    };
    Ok(Done {
        changed: false,
        line: Some(Text::from_string(line)),
        note,
    })
}

/// The line that is printed of a rule of this name, where its name or its label is the one field. The bytes in the
/// buffer are lost: a line that is not the name itself goes there. None: more is asked.
pub fn print_name<'t>(
    env: Env<'_>,
    fields: &[Field],
    name: &'t str,
    buffer: &'t mut String,
) -> Result<Option<&'t str>, NoMemory>
    ensures is { IfOk result (λ line. is_some line ≡ is_name_alone fields.now) }
    ensures line { IfOk result (λ line. IfSome line (λ text. (s : Statement) (r : Rule) → rule_of s.nodes ≡ Some r
        → name_in r.args ≡ Some name.now → prints env.entry.home.now fields.now (Some s)
        ≡ record { changed = false; line = Some text.now; note = None })) }
{
    let [field] = fields else {
        return Ok(None);
    };
    let line = match field {
        Field::Label => print_label(env.home, name, buffer),
        Field::ValueOf(attr) if is_name(attr.as_str().as_bytes()) => {
            print_word(env.alloc, name, buffer)
        }
        _ => return Ok(None),
    }?;
    Ok(Some(line))
}

// Asked for each rule: bytes that are looked at one by one take less than two texts.
fn is_name(attr: &[u8]) -> bool
    ensures { result ≡ bytes_eq attr.now (codes "name") }
{
    matches!(attr, [b'n', b'a', b'm', b'e'])
}

// A label, in the buffer.
fn print_label<'t>(home: &Package, name: &str, buffer: &'t mut String) -> Result<&'t str, NoMemory>
    ensures { IfOk result (λ line. line.now ≡ home_text home.now ++ name.now) }
{
    buffer.clear();
    push_home(buffer, home)?;
    push_str(buffer, name)?;
    Ok(buffer.as_str())
}

// A name as a word: itself, or in the buffer.
fn print_word<'t>(alloc: Global, name: &'t str, buffer: &'t mut String) -> Result<&'t str, NoMemory>
    ensures { IfOk result (λ line. line.now ≡ spec.word_form name.now) }
{
    if is_plain(name.as_bytes()) {
        return Ok(name);
    }
    buffer.clear();
    push_word(alloc, buffer, name)?;
    Ok(buffer.as_str())
}

// Writes fields with a space between them. Tells the first that is missing.
fn push_fields<'f>(
    env: Env<'_>,
    line: &mut String,
    fields: &'f [Field],
    head: Head<'_>,
    parts: &[Part<'_>],
) -> Result<Option<&'f str>, NoMemory>
    ensures { IfOk result (λ missing. HasPrinted env.entry.home.now fields.now head.entry
        (map part_view parts.now) (string_bytes line.old) (string_bytes line.new)
        (option_map (λ name. Missing name.now) missing)) }
{
    let mut missing = None;
    let mut space = "";
    for field in fields {
        push_str(line, space)?;
        missing = missing.or(push_field(env, line, head, parts, field)?);
        space = " ";
    }
    Ok(missing)
}

// Writes a field. Tells its name where it is missing.
fn push_field<'f>(
    env: Env<'_>,
    text: &mut String,
    head: Head<'_>,
    parts: &[Part<'_>],
    field: &'f Field,
) -> Result<Option<&'f str>, NoMemory>
    ensures { IfOk result (λ missing. HasPrinted env.entry.home.now (field.now ∷ []) head.entry
        (map part_view parts.now) (string_bytes text.old) (string_bytes text.new)
        (option_map (λ name. Missing name.now) missing)) }
{
    match field {
        Field::Label => {
            let Some(name) = head.name else {
                push_str(text, "(missing)")?;
                return Ok(Some("label"));
            };
            push_home(text, env.home)?;
            push_str(text, name)?;
        }
        Field::ValueOf(attr) => {
            return push_attribute(env, attr.as_str(), text, head, parts);
        }
        Field::Kind => push_str(text, head.kind)?,
        Field::StartLine => push_number(text, head.start)?,
        Field::EndLine => push_number(text, head.end)?,
    }
    Ok(None)
}

// Writes the value of an attribute. Tells its name where there is no such attribute.
fn push_attribute<'f>(
    env: Env<'_>,
    attr: &'f str,
    text: &mut String,
    head: Head<'_>,
    parts: &[Part<'_>],
) -> Result<Option<&'f str>, NoMemory>
    ensures { IfOk result (λ missing. HasPrinted env.entry.home.now (ValueOf attr.now ∷ []) head.entry
        (map part_view parts.now) (string_bytes text.old) (string_bytes text.new)
        (option_map (λ name. Missing name.now) missing)) }
{
    if let (Some(name), "name") = (head.name, attr) {
        push_word(env.alloc, text, name)?;
        return Ok(None);
    }
    let Some(value) = value_place(parts, attr) else {
        push_str(text, "(missing)")?;
        return Ok(Some(attr));
    };
    push_value(env.alloc, text, parts, value)?;
    Ok(None)
}

// Writes the value that begins at a place.
fn push_value(
    alloc: Global,
    text: &mut String,
    parts: &[Part<'_>],
    value: usize,
) -> Result<(), NoMemory>
    requires { value ≤ length parts.now }
    ensures { OnOk result (ForValue (map part_view parts.now) value (λ nodes after ps.
        string_bytes text.new ≡ string_bytes text.old ++ spec.value_text nodes)) }
{
    if push_strings(alloc, text, parts, value)? {
        return Ok(());
    }
    push_flat(alloc, text, &parts[value..value_end(parts, value)])
}

// Writes the value that begins at a place, where it is one string with a value, or one list of such strings. False,
// with nothing written: it is neither.
fn push_strings(
    alloc: Global,
    text: &mut String,
    parts: &[Part<'_>],
    value: usize,
) -> Result<bool, NoMemory>
    requires { value ≤ length parts.now }
    ensures { IfOk result (λ are. ForValue (map part_view parts.now) value (λ nodes after ps.
        HasStrings are (string_bytes text.old) (string_bytes text.new) nodes)) }
{
    if let Some(literal) = only_string(parts, value) {
        return push_string(alloc, text, literal);
    }
    let Some(list) = only_list(parts, value) else {
        return Ok(false);
    };
    push_list(alloc, text, parts, list)
}

// Writes the value that has these parts as the layout has it on one line.
fn push_flat(alloc: Global, text: &mut String, parts: &[Part<'_>]) -> Result<(), NoMemory>
    ensures { OnOk result ((value : List Item) → map part_view parts.now ≡ items_parts (items_of value)
        → string_bytes text.new ≡ string_bytes text.old ++ flat_text (Some RuleCall) value) }
{
    let flat = flat_parts(alloc, parts, Some(GroupKind::RuleCall))?;
    push_str(text, flat.as_str())
}

// Writes a string with a value as a word. False: it has none.
fn push_string(alloc: Global, text: &mut String, literal: &str) -> Result<bool, NoMemory>
    ensures word { OnOk result
        (string_bytes text.new
        ≡ string_bytes text.old ++ map_or [] spec.word_form (value_of literal.now)) }
    ensures is { IfOk result (λ is. is ≡ is_some (value_of literal.now)) }
{
    // Most need no copy.
    if let Some(word) = bare_word(literal) {
        push_str(text, word)?;
        return Ok(true);
    }
    let Some(word) = read_value(alloc, literal)? else {
        return Ok(false);
    };
    push_word(alloc, text, word.as_str())?;
    Ok(true)
}

// Writes the list whose elements begin at a place, where they are strings with values. False, with nothing written:
// one is none.
fn push_list(
    alloc: Global,
    text: &mut String,
    parts: &[Part<'_>],
    from: usize,
) -> Result<bool, NoMemory>
    requires { from ≤ length parts.now }
    ensures are { IfOk result (λ are. ForRest (map part_view parts.now) from (λ rest after ps.
        are ≡ list_all (λ s. is_some (string_value s.nodes)) rest.elements)) }
    ensures words { IfOk result (λ are. IsTrue are → ForRest (map part_view parts.now) from (λ rest after ps.
        string_bytes text.new ≡ string_bytes text.old ++ spec.words_text rest.elements)) }
    ensures none { IfOk result (λ are. are ≡ false → string_bytes text.new ≡ string_bytes text.old) }
{
    let start = text.len();
    if push_words(alloc, text, parts, from)? {
        return Ok(true);
    }
    text.truncate(start);
    Ok(false)
}

// Writes the elements from a place on in brackets, with a space between them. False: one is no string with a value, and
// those before it are written.
fn push_words(
    alloc: Global,
    text: &mut String,
    parts: &[Part<'_>],
    from: usize,
) -> Result<bool, NoMemory>
    requires { from ≤ length parts.now }
    ensures are { IfOk result (λ are. ForRest (map part_view parts.now) from (λ rest after ps.
        are ≡ list_all (λ s. is_some (string_value s.nodes)) rest.elements)) }
    ensures words { IfOk result (λ are. IsTrue are → ForRest (map part_view parts.now) from (λ rest after ps.
        string_bytes text.new ≡ string_bytes text.old ++ spec.words_text rest.elements)) }
    ensures begun { OnOk result ((more : List ℕ)
        × (string_bytes text.new ≡ string_bytes text.old ++ (codes "[" ++ more))) }
{
    push_char(text, '[')?;
    let mut space = "";
    let mut at = from;
    while let Some(element) = next_element(parts, at) {
        let Some(literal) = element.string else {
            return Ok(false);
        };
        push_str(text, space)?;
        if !push_string(alloc, text, literal)? {
            return Ok(false);
        }
        space = " ";
        at = element.to;
    }
    push_char(text, ']')?;
    Ok(true)
}

// The value of a literal that is its word between two double quotes.
fn bare_word(literal: &str) -> Option<&str>
    ensures value { IfSome result (λ word. value_of literal.now ≡ Some word.now) }
    ensures plain { IfSome result (λ word. spec.is_plain word.now ≡ true) }
{
    let [b'"', word @ .., b'"'] = literal.as_bytes() else {
        return None;
    };
    if word.len() == 0 || has_special(word, b'\\') {
        return None;
    }
    literal.get(1..literal.len() - 1)
}

// Writes a value as a word.
fn push_word(alloc: Global, text: &mut String, word: &str) -> Result<(), NoMemory>
    ensures { OnOk result (string_bytes text.new ≡ string_bytes text.old ++ spec.word_form word.now) }
{
    if is_plain(word.as_bytes()) {
        return push_str(text, word);
    }
    push_str(text, quote(alloc, word)?.as_str())
}

fn is_plain(word: &[u8]) -> bool
    ensures { result ≡ spec.is_plain word.now }
{
    word.len() > 0 && !has_special(word, b'"')
}

// So many bytes are a block.
const BLOCK: usize = 8;

// A quote, this byte, a space or a byte below that. The last block may lie over the one before: so no byte is looked at
// alone, but in a short word.
fn has_special(word: &[u8], other: u8) -> bool
    ensures { result ≡ list_any (is_special other) word.now }
{
    if word.len() < BLOCK {
        return is_special_in(word, other);
    }
    let mut rest = word;
    while rest.len() > BLOCK {
        if is_special_in(&rest[..BLOCK], other) {
            return true;
        }
        rest = &rest[BLOCK..];
    }
    is_special_in(&word[word.len() - BLOCK..], other)
}

// No byte ends the loop, so that the compiler looks at the bytes of a block at once.
#[inline(always)]
fn is_special_in(bytes: &[u8], other: u8) -> bool
    ensures { result ≡ list_any (is_special other) bytes.now }
{
    let mut special = false;
    for b in bytes {
        special |= (*b == b'"') | (*b == other) | (*b <= b' ');
    }
    special
}
