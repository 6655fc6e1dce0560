//! Elements of a list of strings that go or become another, by the lines of the argument whose value the list is.
//! `removed.rt` and `replaced.rt` say which. `added.rt` asks whether one equals a value, and puts others after them.

ghost use Rattle.std.specs.Prelude.{◌≡◌, ◌∷◌, ◌++◌, [], ℕ, List, IfOk, IfSome, IsTrue, length, false, true};
ghost use Rattle.bz_layout.specs.Pieces.{indent};
ghost use Rattle.bz_canonical.specs.declared.edited.Becomes.TheVariants.{Kept};
ghost use Rattle.bz_canonical.specs.private.Edited.{AreElementsEdited, EditsElements, EndsList, IsListEdited, PassesElement, becomes_by, is_meant, none_passed, one_more};

use crate::Known;
use crate::arguments::{Pending, written_len};
use crate::found_value::{is_word, list_of};
use crate::front::before;
use crate::lists::{
    ReadElement, after_elements, is_last, is_on_lines, put_element, put_element_as, read_element,
};
use crate::value::either;
use bz_label::{Package, Text, has_value, quote};
use bz_memory::{NoMemory, extend_from_slice, push};
use std::alloc::Global;

/// What a command makes of an argument whose value is one list of strings.
#[derive(Clone, Copy)]
pub enum EditedList {
    /// It stays.
    Unchanged,
    /// Its lines are in the buffer, after what was there. It goes where they are none.
    Written,
}

/// Which elements of a list a command means: those that equal one of its words, and are not exactly what they would
/// become.
#[derive(Clone, Copy)]
pub(crate) struct ListEdit<'c> {
    /// The attribute whose list it is.
    pub(crate) attr: &'c str,
    pub(crate) words: &'c [Text],
    pub(crate) becomes: Becomes<'c>,
}

/// What an element becomes.
#[derive(Clone, Copy)]
pub(crate) enum Becomes<'c> {
    Kept,
    Gone,
    Other(NewString<'c>),
}

/// A value, and the memory in which the string that is written for it is made.
#[derive(Clone, Copy)]
pub(crate) struct NewString<'c> {
    pub(crate) value: &'c str,
    pub(crate) alloc: Global,
}

/// What the command makes of the argument that has these lines, where its value is one list of strings. `Written`: the
/// lines that it has then are in the buffer, after its bytes: none if no element is left. None: it may be no such list.
/// Without `Written` nothing is said of the buffer's bytes. Err: memory is wanting.
pub(crate) fn put_edited(
    home: &Package,
    lines: &str,
    edit: ListEdit<'_>,
    max_depth: u8,
    written: &mut Vec<u8>,
) -> Known<EditedList>
    ensures { IfOk result (λ known. IfSome known
        (EditsElements max_depth home.now edit.entry lines.now written.old.items written.new.items)) }
{
    let begun = written.len();
    let Some(list) = put_list_edited(home, lines, edit, max_depth, written)? else {
        return Ok(None);
    };
    if !list.passed.meant {
        return Ok(Some(EditedList::Unchanged));
    }
    if !put_pending(list.passed.at, written)? {
        return Ok(None);
    }
    if !list.passed.left {
        written.truncate(begun);
        return Ok(Some(EditedList::Written));
    }
    if !end_list(list, written)? {
        return Ok(None);
    }
    Ok(Some(EditedList::Written))
}

/// Writes what follows the elements that are left, which end the buffer, each on lines of its own. One alone without a
/// comment is put in place. False: there is none.
pub(crate) fn end_list(list: PassedList<'_>, written: &mut Vec<u8>) -> Result<bool, NoMemory>
    ensures { IfOk result (λ ended. IsTrue ended → EndsList list.entry written.old.items written.new.items) }
{
    if list.passed.broken {
        extend_from_slice(written, b"\n    ]".as_slice())?;
        extend_from_slice(written, list.end)?;
        return Ok(true);
    }
    if !put_in_place(list.start, written)? {
        return Ok(false);
    }
    extend_from_slice(written, list.end)?;
    Ok(true)
}

/// Puts the one element in place that ends the buffer, on a line of its own from here on, and the bracket after it.
/// False: it is not there.
fn put_in_place(start: usize, written: &mut Vec<u8>) -> Result<bool, NoMemory>
    ensures { IfOk result (λ put. IsTrue put → (front token : List ℕ) → length front ≡ start
        → written.old.items ≡ front ++ (10 ∷ (indent 2 ++ (token ++ 44 ∷ [])))
        → written.new.items ≡ front ++ (token ++ 93 ∷ [])) }
{
    // A newline and an indent stand before it, and a comma after it.
    let len = written.len();
    if len < 10 || start > len - 10 {
        return Ok(false);
    }
    written.copy_within(start + 9..len - 1, start);
    written.truncate(len - 10);
    push(written, b']')?;
    Ok(true)
}

/// Elements of a list that were passed. The lines of those that are left are in the buffer, or pending.
#[derive(Clone, Copy)]
pub(crate) struct Passed<'t> {
    pub(crate) at: Pending<'t>,
    /// There was one at least.
    pub(crate) one: bool,
    /// One was meant.
    pub(crate) meant: bool,
    /// One at least is left.
    pub(crate) left: bool,
    /// What is left stands on lines: there are two at least, or one has a comment.
    pub(crate) broken: bool,
}

impl<'t> Passed<'t> {
    /// None was passed.
    #[inline(always)]
    pub(crate) fn none(at: Pending<'t>) -> Passed<'t>
        ensures { result ≡ none_passed at.entry }
    {
        Passed {
            at,
            one: false,
            meant: false,
            left: false,
            broken: false,
        }
    }

    /// One was passed more, which was meant, and goes.
    #[inline(always)]
    fn without_one(self, at: Pending<'t>) -> Passed<'t>
        ensures { result ≡ record self.entry { at = at.entry; one = true; meant = true } }
    {
        Passed {
            at,
            one: true,
            meant: true,
            left: self.left,
            broken: self.broken,
        }
    }

    /// One was passed more, and one is left more, which has a comment or none.
    #[inline(always)]
    pub(crate) fn with_one(self, at: Pending<'t>, meant: bool, noted: bool) -> Passed<'t>
        ensures { result ≡ one_more self.entry at.entry meant noted }
    {
        Passed {
            at,
            one: true,
            meant: either(self.meant, meant),
            left: true,
            broken: either(self.broken, either(self.left, noted)),
        }
    }
}

/// A list whose elements were passed.
#[derive(Clone, Copy)]
pub(crate) struct PassedList<'t> {
    pub(crate) passed: Passed<'t>,
    /// What follows the bracket after them.
    pub(crate) end: &'t [u8],
    /// So much is written before them.
    pub(crate) start: usize,
}

/// Writes the argument of these lines, whose value is one list of strings, as the command leaves it, up to the bracket
/// after its elements, after the buffer's bytes. What stands there as it is written may be pending at the end.
#[inline(always)]
pub(crate) fn put_list_edited<'t>(
    home: &Package,
    lines: &'t str,
    edit: ListEdit<'_>,
    max_depth: u8,
    written: &mut Vec<u8>,
) -> Known<PassedList<'t>>
    ensures { IfOk result (λ known. IfSome known
        (IsListEdited max_depth home.now edit.entry lines.now written.old.items written.new.items)) }
{
    let from = lines.as_bytes();
    let Some(rest) = list_of(from, edit.attr.as_bytes(), max_depth) else {
        return Ok(None);
    };
    let Some(list) = put_elements_edited(home, Pending { from, rest }, edit, written)? else {
        return Ok(None);
    };
    if !is_last(list.end) {
        return Ok(None);
    }
    Ok(Some(list))
}

/// Writes the elements that stand here, as the command leaves them, after what is pending.
fn put_elements_edited<'t>(
    home: &Package,
    begun: Pending<'t>,
    edit: ListEdit<'_>,
    written: &mut Vec<u8>,
) -> Known<PassedList<'t>>
    ensures { IfOk result (λ known. IfSome known (AreElementsEdited home.now edit.entry begun.entry.from.now
        begun.entry.rest.now written.old.items written.new.items)) }
{
    let Some(start) = written_len(begun, written) else {
        return Ok(None);
    };
    let lines = is_on_lines(begun.rest);
    let mut passed = Passed::none(begun);
    for _ in 0..begun.rest.len() {
        if let Some(end) = after_elements(passed.at.rest, lines) {
            return Ok(Some(PassedList { passed, end, start }));
        }
        let Some(next) = read_element(passed.at.rest, lines, passed.one) else {
            return Ok(None);
        };
        let Some(meant) = is_meant(home, edit, next.string.token) else {
            return Ok(None);
        };
        let Some(more) = pass_element(passed, next, meant, edit, written)? else {
            return Ok(None);
        };
        passed = more;
    }
    Ok(None)
}

/// The command means this string. None: it is not known.
#[inline(always)]
fn is_meant(home: &Package, edit: ListEdit<'_>, token: &[u8]) -> Option<bool>
    ensures { IfSome result (λ meant. meant ≡ is_meant home.now edit.entry token.now) }
{
    let equal = is_word(home, token, edit.words)?;
    match edit.becomes {
        Becomes::Other(new) if equal => Some(!has_value(token, new.value.as_bytes())),
        _ => Some(equal),
    }
}

/// What an element becomes that the command means or not.
#[inline(always)]
fn becomes_by(edit: ListEdit<'_>, meant: bool) -> Becomes<'_>
    ensures { result ≡ becomes_by edit.entry meant }
{
    if meant { edit.becomes } else { Becomes::Kept }
}

/// Passes one element more, which the command means or not.
#[inline(always)]
fn pass_element<'t>(
    passed: Passed<'t>,
    next: ReadElement<'t>,
    meant: bool,
    edit: ListEdit<'_>,
    written: &mut Vec<u8>,
) -> Known<Passed<'t>>
    ensures { IfOk result (λ known. IfSome known
        (PassesElement passed.entry next.entry meant edit.entry written.old.items written.new.items)) }
{
    let becomes = becomes_by(edit, meant);
    if is_as_it_stands(becomes, next) {
        let at = Pending {
            from: passed.at.from,
            rest: next.rest,
        };
        return Ok(Some(passed.with_one(at, meant, next.noted)));
    }
    if !put_pending(passed.at, written)? {
        return Ok(None);
    }
    let at = Pending {
        from: next.rest,
        rest: next.rest,
    };
    match becomes {
        Becomes::Gone => Ok(Some(passed.without_one(at))),
        Becomes::Kept => {
            put_element(next, written)?;
            Ok(Some(passed.with_one(at, meant, next.noted)))
        }
        Becomes::Other(new) => {
            let literal = quote(new.alloc, new.value)?;
            put_element_as(next, literal.as_bytes(), written)?;
            Ok(Some(passed.with_one(at, meant, next.noted)))
        }
    }
}

/// The element stays, and stands as it is written.
#[inline(always)]
fn is_as_it_stands(becomes: Becomes<'_>, element: ReadElement<'_>) -> bool
    ensures kept { IsTrue result → becomes.entry ≡ Kept }
    ensures stands { IsTrue result → element.entry.otherwise ≡ false }
{
    match becomes {
        Becomes::Kept => !element.otherwise,
        _ => false,
    }
}

/// Writes what is pending. False: more is to be read than the text has.
#[inline(always)]
pub(crate) fn put_pending(at: Pending<'_>, written: &mut Vec<u8>) -> Result<bool, NoMemory>
    ensures { IfOk result (λ put. IsTrue put → (part : List ℕ) → at.entry.from.now ≡ part ++ at.entry.rest.now
        → written.new.items ≡ written.old.items ++ part) }
{
    let Some(part) = before(at.from, at.rest.len()) else {
        return Ok(false);
    };
    extend_from_slice(written, part)?;
    Ok(true)
}
