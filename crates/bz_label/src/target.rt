//! Targets: which rules of a package are meant.

ghost use Rattle.std.specs.Prelude.{◌≡◌};
ghost use Rattle.bz_label.specs.LabelViews.{marked_view};
ghost use Rattle.bz_label.specs.Labels as spec;

use crate::list::Text;
use std::marker::Model;

// How a target is kept.
#[derive(Drop)]
pub(crate) enum Form {
    Name(Text),
    Pkg,
    All,
    Kind(Text),
    Line(u64),
}

/// The rules that a target marks.
#[derive(Clone, Copy)]
pub enum Marked<'t> {
    /// Those of this name.
    Name(&'t str),
    /// The `package` calls.
    Pkg,
    All,
    /// Those of this kind.
    Kind(&'t str),
    /// Those that begin on this line.
    Line(u64),
}

/// Which rules of a package are meant: those of a name, the `package` calls (`__pkg__`), all (`*`), those of a kind
/// (`%kind`), or those that begin on a line (`%line`). [`read_label`](crate::read_label) makes it.
#[derive(Drop)]
pub struct Target {
    pub(crate) form: Form,
}

impl Model for Target {
    ghost use Rattle.bz_label.specs.Labels as spec;

    ghost Value = { spec.Target };

    ghost use Rattle.bz_label.specs.LabelViews.{target_view};

    ghost view = { λ t. target_view t.form };

    ghost invariant = { λ t. spec.IsRead (target_view t.form) };
}

impl Target {
    /// The rules that it marks.
    pub fn marked(&self) -> Marked<'_>
        ensures { marked_view result ≡ self.now }
    {
        match &self.form {
            Form::Name(name) => Marked::Name(name.as_str()),
            Form::Pkg => Marked::Pkg,
            Form::All => Marked::All,
            Form::Kind(kind) => Marked::Kind(kind.as_str()),
            Form::Line(line) => Marked::Line(*line),
        }
    }

    /// Whether it is a failure if it marks nothing: so for a name, the `package` calls and a line.
    pub fn must_mark(&self) -> bool
        ensures { result ≡ spec.must_mark self.now }
    {
        matches!(self.form, Form::Name(_) | Form::Pkg | Form::Line(_))
    }
}
