//! The arc of a claim that is made.

use std::marker::Brand;

/// The state and the arc of the next claim. They stand in a type, since a split of a view sees nothing but the view.
pub(crate) trait Making {
    ghost use Rattle.std.specs.Prelude.{ℕ};

    ghost state: { ℕ };

    ghost arc: { ℕ };
}

impl Making for Brand {
    ghost state = { 0 };

    ghost arc = { 0 };
}
