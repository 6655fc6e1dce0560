//! What a command has at hand.

use bz_label::Package;
use std::alloc::Global;

/// What a command has at hand: memory, and the package in which words are labels.
#[derive(Clone, Copy)]
pub struct Env<'h> {
    pub alloc: Global,
    pub home: &'h Package,
}
