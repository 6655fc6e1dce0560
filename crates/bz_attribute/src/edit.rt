//! What a command makes of the parts of a rule: others come to stand in a place of them.

ghost use Rattle.std.specs.Prelude.{◌≡◌, None, false, true};
ghost use Rattle.bz_attribute.specs.Reports as reports;

use crate::done::Done;
use crate::place::Place;

/// Where `done.changed`, the parts of a rule at the place make way for those that the command wrote.
#[derive(Drop)]
pub struct Edit {
    pub done: Done,
    pub place: Place,
}

impl Edit {
    /// A change at a place.
    pub fn at(place: Place) -> Edit
        ensures { result ≡ record { done = reports.done None true; place = place } }
    {
        Edit {
            done: Done::quiet(true),
            place,
        }
    }

    /// No change, and what is told of that.
    pub fn none(done: Done) -> Edit
        ensures { result ≡ record { done = done; place = record { from = 0; to = 0 } } }
    {
        Edit {
            done,
            place: Place { from: 0, to: 0 },
        }
    }
}
