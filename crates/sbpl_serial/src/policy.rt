//! What becomes of the labels of a serial search where the graph changes.

ghost use Rattle.std.specs.Prelude.{Bool, true, false};

/// What becomes of the labels of a serial search where the graph changes. Only labels that are repaired may be underconsistent, so
/// this also says from which labels a pass may begin, and how often it takes one state.
pub trait Policy {
    /// Whether the labels are repaired, which needs the touched states. Otherwise they are made initial again.
    const REPAIRS: bool;

    ghost REPAIRS: { Bool };
}

/// Labels are made initial again, as in ARA* (Likhachev, Gordon and Thrun 2003).
#[derive(Clone, Copy, Debug)]
pub struct Anew;

/// Labels are repaired, as in Anytime D* (Likhachev, Ferguson, Gordon, Stentz and Thrun 2005).
#[derive(Clone, Copy, Debug)]
pub struct Repair;

impl Policy for Anew {
    const REPAIRS: bool = false;

    ghost REPAIRS = { false };
}

impl Policy for Repair {
    const REPAIRS: bool = true;

    ghost REPAIRS = { true };
}
