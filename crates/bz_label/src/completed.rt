//! A label of a package in full: a chain of texts.

ghost use Rattle.std.specs.Prelude.{◌≡◌, ℕ, List, IsTrue, MatchOption, IfSome, [], ◌∷◌, ◌++◌, option_map};
ghost use Rattle.std.specs.List.{flat_map, list_all, list_any};
ghost use Rattle.std.specs.Ordering.{nat_cmp};
ghost use Rattle.std.specs.Cmp.Lexicographic.{slice_cmp};
ghost use Rattle.bz_label.specs.Labels.{last_part, parts_of};
ghost use Rattle.bz_label.specs.Labels as labels;
ghost use Rattle.bz_label.specs.Same as same;
ghost use Rattle.bz_label.specs.private.ByteSteps.{left, is_good};
ghost use Rattle.bz_label.specs.private.LabelSteps.{rest_after, chain_bytes, front_bytes, is_good_chain};

use crate::bytes::{Bytes, next};
use crate::package::Package;
use std::cmp::Ordering;

/// The label that a text is in a package.
pub(crate) fn completed<'a>(home: &'a Package, text: Bytes<'a>) -> [Bytes<'a>; 4]
    requires { IsTrue (is_good text) }
    ensures bytes { flat_map left result ≡ same.completed home.now (left text.entry) }
    ensures good { IsTrue (list_all is_good result) }
{
    let nothing = Bytes::Plain(b"");
    let colon = Bytes::Plain(b":");
    let whole = [text, nothing, nothing, nothing];
    let Some((first, rest)) = next(text) else {
        return whole;
    };
    if first == b':' {
        return in_package(home, nothing, text);
    }
    if first == b'@' || has_colon(rest) {
        return whole;
    }
    if first != b'/' {
        return in_package(home, colon, text);
    }
    let name = last_part(text);
    if !matches!(next(rest), Some((b'/', _))) || next(name).is_none() {
        return whole;
    }
    [text, colon, name, nothing]
}

/// What stands before a text in the label that it is.
#[derive(Clone, Copy)]
pub(crate) struct Front<'a> {
    pub(crate) slashes: &'a [u8],
    pub(crate) path: &'a [u8],
    pub(crate) colon: &'a [u8],
}

/// What stands before the text in the label that it is, where nothing stands after it. None: it is a path, or empty.
pub(crate) fn front_of<'a>(home: &'a Package, text: &[u8]) -> Option<Front<'a>>
    ensures { IfSome result (λ front. front_bytes front text.now ≡ same.completed home.now text.now) }
{
    let [first, rest @ ..] = text else {
        return None;
    };
    if *first == b':' {
        return Some(package_front(home, b""));
    }
    if *first == b'@' || rest.contains(&b':') {
        return Some(Front {
            slashes: b"",
            path: b"",
            colon: b"",
        });
    }
    if *first == b'/' {
        return None;
    }
    Some(package_front(home, b":"))
}

fn package_front<'a>(home: &'a Package, colon: &'a [u8]) -> Front<'a>
    ensures { (text : List ℕ) → front_bytes result text ≡ labels.in_package home.now (colon.now ++ text) }
{
    match home.path() {
        Some(path) => Front {
            slashes: b"//",
            path: path.as_bytes(),
            colon,
        },
        None => Front {
            slashes: b"",
            path: b"",
            colon,
        },
    }
}

fn in_package<'a>(home: &'a Package, colon: Bytes<'a>, name: Bytes<'a>) -> [Bytes<'a>; 4]
    requires colon { IsTrue (is_good colon) }
    requires name { IsTrue (is_good name) }
    ensures bytes { flat_map left result ≡ labels.in_package home.now (left colon.entry ++ left name.entry) }
    ensures good { IsTrue (list_all is_good result) }
{
    match home.path() {
        Some(path) => [
            Bytes::Plain(b"//"),
            Bytes::Plain(path.as_bytes()),
            colon,
            name,
        ],
        None => [Bytes::Plain(b""), Bytes::Plain(b""), colon, name],
    }
}

// A colon stands in it.
fn has_colon(text: Bytes<'_>) -> bool
    requires { IsTrue (is_good text) }
    ensures { result ≡ list_any labels.is_colon (left text.entry) }
{
    match text {
        Bytes::Plain(bytes) => bytes.contains(&b':'),
        Bytes::Inner(_) => after(text, b':').is_some(),
    }
}

// What stands after the last slash.
fn last_part<'a>(mut path: Bytes<'a>) -> Bytes<'a>
    requires { IsTrue (is_good path) }
    ensures last { left result ≡ labels.last_part (labels.parts_of (left path.entry)) }
    ensures good { IsTrue (is_good result) }
{
    if let Bytes::Plain(bytes) = path {
        return Bytes::Plain(last_plain_part(bytes));
    }
    while let Some(rest) = after(path, b'/') {
        path = rest;
    }
    path
}

// It is looked for from the end.
fn last_plain_part(path: &[u8]) -> &[u8]
    ensures { result.now ≡ labels.last_part (labels.parts_of path.now) }
{
    let mut rest = path;
    while let [front @ .., byte] = rest {
        if *byte == b'/' {
            return &path[rest.len()..];
        }
        rest = front;
    }
    path
}

// What stands after the first such byte, where there is one.
fn after<'a>(mut text: Bytes<'a>, byte: u8) -> Option<Bytes<'a>>
    requires { IsTrue (is_good text) }
    ensures rest { option_map left result ≡ rest_after byte (left text.entry) }
    ensures good { IfSome result (λ rest. IsTrue (is_good rest)) }
{
    if let Bytes::Plain(mut slice) = text {
        while let [first, rest @ ..] = slice {
            if *first == byte {
                return Some(Bytes::Plain(rest));
            }
            slice = rest;
        }
        return None;
    }
    while let Some((b, rest)) = next(text) {
        if b == byte {
            return Some(rest);
        }
        text = rest;
    }
    None
}

/// What is left of a chain of texts.
#[derive(Clone, Copy)]
struct Chain<'a> {
    first: Bytes<'a>,
    rest: &'a [Bytes<'a>],
}

/// How the bytes of two chains of texts are ordered. What lies in one slice is compared as a slice.
pub(crate) fn order<'a>(texts: &'a [Bytes<'a>], others: &'a [Bytes<'a>]) -> Ordering
    requires texts { IsTrue (list_all is_good texts.now) }
    requires others { IsTrue (list_all is_good others.now) }
    ensures { result ≡ slice_cmp nat_cmp (flat_map left texts.now) (flat_map left others.now) }
{
    let first = Bytes::Plain(b"");
    let mut a = Chain { first, rest: texts };
    let mut b = Chain {
        first,
        rest: others,
    };
    while let Some((byte, after)) = next_in(a) {
        let Some((other, following)) = next_in(b) else {
            return Ordering::Greater;
        };
        if byte != other {
            return byte.cmp(&other);
        }
        a = after;
        b = following;
        if let (Bytes::Plain(x), Bytes::Plain(y)) = (a.first, b.first) {
            let both = x.len().min(y.len());
            let (x, x_rest) = x.split_at(both);
            let (y, y_rest) = y.split_at(both);
            let found = x.cmp(&y);
            if found.is_ne() {
                return found;
            }
            a.first = Bytes::Plain(x_rest);
            b.first = Bytes::Plain(y_rest);
        }
    }
    if next_in(b).is_none() {
        Ordering::Equal
    } else {
        Ordering::Less
    }
}

// The next byte, and what is left after it.
fn next_in<'a>(chain: Chain<'a>) -> Option<(u8, Chain<'a>)>
    requires { IsTrue (is_good_chain chain) }
    ensures next { MatchOption result (chain_bytes chain.entry ≡ [])
        (λ p. chain_bytes chain.entry ≡ p.0 ∷ chain_bytes p.1) }
    ensures good { IfSome result (λ p. IsTrue (is_good_chain p.1)) }
{
    if let Some((b, first)) = next(chain.first) {
        return Some((b, Chain { first, ..chain }));
    }
    let [first, rest @ ..] = chain.rest else {
        return None;
    };
    next_in(Chain {
        first: *first,
        rest,
    })
}
