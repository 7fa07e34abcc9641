//! The primitives of a file that were read so far.

ghost use Rattle.std.specs.Prelude.{◌≡◌, ◌+◌, ◌≤◌, [], ◌∷◌, ◌++◌, length, sum_by, IfErr, OnOk};
ghost use Rattle.sbpl_mprim.specs.Judging.{has_id};
ghost use Rattle.sbpl_mprim.specs.Primitives.{pose_count};

use crate::fault::PrimFault;
use crate::prim::Prim;
use std::alloc::Global;
use std::collections::BTreeSet;
use std::marker::Model;

/// The primitives read so far. It keeps their ids in a set, so that a look-up does not go over all of them, and counts
/// their poses, at most 200,000.
#[derive(Drop)]
pub(crate) struct Earlier {
    prims: Vec<Prim>,
    ids: BTreeSet<(u32, u32)>,
    poses: u32,
}

impl Model for Earlier {
    ghost use Rattle.std.specs.Prelude.{List};
    ghost use Rattle.sbpl_mprim.specs.declared.prim.Primitive.{Primitive};
    ghost use Rattle.sbpl_mprim.specs.Earlier.{IsKept};

    ghost Value = { List Primitive };

    ghost view = { λ e. e.prims.items };

    ghost invariant = { λ e. IsKept e.prims.items e.ids e.poses };
}

impl Earlier {
    pub(crate) fn new(alloc: Global) -> Earlier
        ensures none { result ≡ [] }
    {
        Earlier {
            prims: Vec::new(alloc),
            ids: BTreeSet::new(alloc),
            poses: 0,
        }
    }

    /// One of them has this start heading and this id.
    pub(crate) fn has_id(&self, from: u32, id: u32) -> bool
        ensures taken { result ≡ has_id self.now from id }
    {
        self.ids.contains(&(from, id))
    }

    /// How many poses they have.
    pub(crate) fn poses(&self) -> u32
        ensures poses { result ≡ sum_by pose_count self.now }
        ensures few { result ≤ 200000 }
    {
        self.poses
    }

    pub(crate) fn push(&mut self, prim: Prim) -> Result<(), PrimFault>
        requires few { sum_by pose_count self.old + length prim.poses ≤ 200000 }
        ensures pushed { OnOk result (self.new ≡ self.old ++ prim ∷ []) }
        ensures memory { IfErr result (λ e. e ≡ PrimFault.NoMemory) }
    {
        let id = (prim.from, prim.id);
        let poses = prim.poses.as_slice().len() as u32;
        self.prims.reserve(1)?;
        self.ids.insert(id)?;
        self.prims.push(prim)?;
        self.poses += poses;
        Ok(())
    }

    pub(crate) fn into_vec(self) -> Vec<Prim>
        ensures prims { result.items ≡ self }
    {
        self.prims
    }
}
