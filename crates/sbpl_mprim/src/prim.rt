//! One motion primitive.

use sbpl_cfg::{ListOf, Pose};

/// The poses along a primitive, as offsets from the centre of the source cell.
pub type Poses = ListOf<Pose>;

/// A motion primitive.
// The name `Prim` itself can't be the struct's: the proofs' own library has a module of that name.
pub type Prim = Primitive;

/// A motion primitive, as SBPL's primitive files give them.
#[derive(Debug, Drop)]
pub struct Primitive {
    /// The id, 0..65535. No two primitives with the same start heading have the same id.
    pub id: u32,
    /// The start heading, below the number of headings.
    pub from: u32,
    /// Cells moved along x, -32767..32767.
    pub dx: i32,
    /// Cells moved along y, -32767..32767.
    pub dy: i32,
    /// The end heading, below the number of headings.
    pub to: u32,
    /// The cost multiplier, 1..16777215.
    pub mult: u32,
    /// The poses along the motion, at least one; `x` and `y` in -10^12..10^12 nanometres.
    pub poses: Poses,
}
