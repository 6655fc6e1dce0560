//! One step of a script.

use std::marker::Model;

/// A target, and the commands to be executed on the statements that it marks.
#[derive(Drop)]
pub struct Pass<T, C> {
    pub target: T,
    pub commands: Vec<C>,
}

impl<T, C> Model for Pass<T, C> {
    ghost use Rattle.bz_passes.specs.Passes as spec;

    ghost Value = { spec.Pass T C };

    ghost view = { λ p. record { target = p.target; commands = p.commands.items } };
}
