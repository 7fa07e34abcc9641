//! The two ends of an arc.

ghost use Rattle.std.specs.Prelude.{◌≡◌};
ghost use Rattle.sbpl_terrain.specs.Ends.{other_end};

/// An end of an arc.
#[derive(Clone, Copy, Debug, PartialEq, Eq)]
pub enum ArcEnd {
    /// The state that the arc comes from.
    Source,
    /// The state that it leads to.
    Head,
}

impl ArcEnd {
    /// The other end.
    pub fn other(self) -> ArcEnd
        ensures other { result ≡ other_end self }
    {
        match self {
            ArcEnd::Source => ArcEnd::Head,
            ArcEnd::Head => ArcEnd::Source,
        }
    }
}
