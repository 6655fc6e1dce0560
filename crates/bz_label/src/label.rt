//! A text as a label of a package, which is ordered by a key, and then by its bytes in full; and which texts are the
//! same.

ghost use Rattle.std.specs.Prelude.{◌≡◌, Some, refl, false, IsTrue, bytes_eq};
ghost use Rattle.std.specs.List.{fold, flat_map, list_all};
ghost use Rattle.std.specs.Cmp.{partial_equiv_from_equiv, eq_by_cmp_equiv, partial_order_from_total};
ghost use Rattle.std.specs.Ordering.{eq_by_cmp};
ghost use Rattle.bz_label.specs.Labels as labels;
ghost use Rattle.bz_label.specs.private.ByteSteps.{left, is_good};
ghost use Rattle.bz_label.specs.private.LabelSteps.{stirred, key_of, label_cmp, label_cmp_total};
ghost use Rattle.bz_label.specs.Same as spec;

use crate::bytes::{Bytes, next};
use crate::completed::{completed, front_of, order};
use crate::package::Package;
use std::cmp::Ordering;
use std::marker::Model;

/// Contracts see the label in full. Its key is made of all its bytes, and tells most labels apart.
#[derive(Drop)]
pub(crate) struct Label<'a> {
    key: u64,
    home: &'a Package,
    text: Bytes<'a>,
}

impl<'a> Model for Label<'a> {
    ghost use Rattle.std.specs.Prelude.{◌≡◌, ℕ, List, IsTrue};
    ghost use Rattle.bz_label.specs.Same.{completed};
    ghost use Rattle.bz_label.specs.private.ByteSteps.{left, is_good};
    ghost use Rattle.bz_label.specs.private.LabelSteps.{key_of};

    ghost Value = { List ℕ };

    ghost view = { λ l. completed l.home.now (left l.text) };

    ghost invariant = { λ l. IsTrue (is_good l.text) × (l.key ≡ key_of (completed l.home.now (left l.text))) };
}

impl<'a> Label<'a> {
    pub(crate) fn new(home: &'a Package, text: Bytes<'a>) -> Label<'a>
        requires { IsTrue (is_good text) }
        ensures { result ≡ spec.completed home.now (left text.entry) }
    {
        let key = key_in_full(home, text);
        Label { key, home, text }
    }

    // All its bytes, as texts in a row.
    fn texts(&self) -> [Bytes<'a>; 4]
        ensures bytes { flat_map left result ≡ self.now }
        ensures good { IsTrue (list_all is_good result) }
    {
        completed(self.home, self.text)
    }
}

// The key of the label that a text is. That of most needs no chain of texts.
fn key_in_full(home: &Package, text: Bytes<'_>) -> u64
    requires { IsTrue (is_good text) }
    ensures { result ≡ key_of (spec.completed home.now (left text.entry)) }
{
    if let Bytes::Plain(bytes) = text {
        if let Some(front) = front_of(home, bytes) {
            let key = stirred_by(stirred_by(0, front.slashes), front.path);
            return stirred_by(stirred_by(key, front.colon), bytes);
        }
    }
    let mut key = 0;
    for text in &completed(home, text) {
        key = stirred(key, *text);
    }
    key
}

// A key with the bytes of a text more.
fn stirred(mut key: u64, mut text: Bytes<'_>) -> u64
    requires { IsTrue (is_good text) }
    ensures { result ≡ fold stirred key (left text.entry) }
{
    if let Bytes::Plain(bytes) = text {
        return stirred_by(key, bytes);
    }
    while let Some((b, rest)) = next(text) {
        key = key.rotate_left(7) ^ u64::from(b);
        text = rest;
    }
    key
}

fn stirred_by(key: u64, bytes: &[u8]) -> u64
    ensures { result ≡ fold stirred key bytes.now }
{
    bytes
        .iter()
        .fold(key, |key, b| key.rotate_left(7) ^ u64::from(*b))
}

impl<'a> PartialEq for Label<'a> {
    ghost eq = { eq_by_cmp label_cmp };

    ghost laws = { partial_equiv_from_equiv (eq_by_cmp_equiv label_cmp_total) };

    fn eq(&self, other: &Label<'a>) -> bool {
        self.cmp(other).is_eq()
    }
}

impl<'a> Eq for Label<'a> {
    ghost laws = { eq_by_cmp_equiv label_cmp_total };
}

impl<'a> PartialOrd for Label<'a> {
    ghost partial_cmp = { λ a b. Some (label_cmp a b) };

    ghost laws = { partial_order_from_total label_cmp_total };

    fn partial_cmp(&self, other: &Label<'a>) -> Option<Ordering> {
        Some(self.cmp(other))
    }
}

impl<'a> Ord for Label<'a> {
    ghost cmp = { label_cmp };

    ghost total = { label_cmp_total };

    ghost matches_partial_cmp = { λ a b. refl };

    ghost matches_eq = { λ a b. refl };

    fn cmp(&self, other: &Label<'a>) -> Ordering {
        match self.key.cmp(&other.key) {
            Ordering::Equal => order(&self.texts(), &other.texts()),
            found => found,
        }
    }
}

/// Whether two texts are the same label in a package, its home: `x` and `:x` there are `//path:x`, and `//a/b` is
/// `//a/b:b`.
pub fn same(a: &str, b: &str, home: &Package) -> bool
    ensures { result ≡ spec.same home.now a.now b.now }
{
    same_label(home, Bytes::Plain(a.as_bytes()), Bytes::Plain(b.as_bytes()))
}

/// Whether the two are the same label in a package: their full forms are compared.
pub fn same_label(home: &Package, a: Bytes<'_>, b: Bytes<'_>) -> bool
    requires a { IsTrue (is_good a) }
    requires b { IsTrue (is_good b) }
    ensures { result ≡ spec.same home.now (left a.entry) (left b.entry) }
{
    match (a, b) {
        (Bytes::Plain(a), Bytes::Plain(b)) if a == b => true,
        (Bytes::Plain(a), Bytes::Plain(b)) if are_apart(a, b) => false,
        _ => order(&completed(home, a), &completed(home, b)).is_eq(),
    }
}

// The two end in the same bytes, if any, without slashes, and the bytes before these differ: a label in full ends as its
// text does after the last slash. Most texts differ in the last byte.
fn are_apart(mut a: &[u8], mut b: &[u8]) -> bool
    ensures { IsTrue result → (home : labels.Package)
        → bytes_eq (spec.completed home a.entry.now) (spec.completed home b.entry.now) ≡ false }
{
    while let ([front @ .., byte], [rest @ .., other]) = (a, b) {
        if *byte == b'/' || *other == b'/' {
            return false;
        }
        if *byte != *other {
            return true;
        }
        a = front;
        b = rest;
    }
    false
}
