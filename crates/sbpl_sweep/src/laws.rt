//! What holds of every sweep.

ghost use Rattle.sbpl_sweep.specs.Sweep.{EndsAreCentres, PointSweepsCentres};
ghost use Rattle.sbpl_sweep.specs.Widths.{FewPosesAreNarrow, PointsSweepFewCells};

/// The end cell of a primitive is one of its centre cells, since its last pose lies there. It does nothing.
pub fn ends_are_centres()
    ensures law { EndsAreCentres }
{}

/// A robot of radius 0 sweeps its centre cells alone. It does nothing.
pub fn point_sweeps_centres()
    ensures law { PointSweepsCentres }
{}

/// A robot of radius 0 sweeps at most as many cells as a motion has poses. So primitives are not too wide for it where
/// each has at most 65,536 poses, and all together at most 2^22. It does nothing.
pub fn few_poses_are_narrow()
    ensures cells { PointsSweepFewCells }
    ensures narrow { FewPosesAreNarrow }
{}
