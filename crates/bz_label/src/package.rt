//! Packages: where a BUILD file's text stands.

ghost use Rattle.std.specs.Prelude.{◌≡◌, option_map};
ghost use Rattle.bz_label.specs.Labels as spec;

use crate::list::Text;
use std::marker::Model;

#[derive(PartialEq, Eq, Hash, Drop)]
pub enum PackagePlace {
    Standard,
    Path(Text),
}

/// A package: the path of a folder, or standard input and output. [`read_label`](crate::read_label) makes it.
#[derive(PartialEq, Eq, Hash, Drop)]
pub struct Package {
    pub(crate) place: PackagePlace,
}

impl Model for Package {
    ghost use Rattle.bz_label.specs.Labels as spec;

    ghost Value = { spec.Package };

    ghost use Rattle.bz_label.specs.LabelViews.{package_view, place_of, place_back};

    ghost view = { λ p. package_view p.place };

    ghost inverse = { λ v. record { place = place_of v } };

    ghost inverse_ok = { λ a h. place_back a };

    ghost invariant = { λ p. spec.IsPackage (package_view p.place) };
}

impl Package {
    /// The path of its folder, empty for the root; `None` for standard input and output.
    pub fn path(&self) -> Option<&str>
        ensures value { option_map (λ path. path.now) result ≡ self.now }
        ensures good { spec.IsPackage self.now }
    {
        match &self.place {
            PackagePlace::Standard => None,
            PackagePlace::Path(path) => Some(path.as_str()),
        }
    }
}
