//! How far the cells lie that a motion sweeps.

ghost use Rattle.std.specs.Prelude.{◌≡◌, ℕ, ◌<◌, slice_get, Some, true};
ghost use Rattle.sbpl_sweep.specs.declared.cell.Cell.{Cell};
ghost use Rattle.sbpl_cost.specs.Judging.{IsNear};
ghost use Rattle.sbpl_cost.specs.Reaches.{IsAsFar, IsInside, IsReach, LieWithin};
ghost use Rattle.sbpl_cost.specs.Strips.{cells_in, strip_cells};

use crate::strip::Strip;
use sbpl_terrain::Map;

/// How far cells lie from the source cell of a motion at most, in columns and in rows, to either side.
#[derive(Clone, Copy)]
pub(crate) struct Reach {
    pub(crate) columns: u64,
    pub(crate) rows: u64,
}

impl Reach {
    /// The reach of these cells and of those of a strip.
    fn with(self, strip: Strip) -> Reach
        requires some { 0 < strip.len }
        requires near { (i : ℕ) (c : Cell) → slice_get (strip_cells strip) i ≡ Some c → IsNear c }
        requires reach { IsReach self }
        ensures reach { IsReach result }
        ensures far { IsAsFar self result }
        ensures within { LieWithin result (strip_cells strip) }
    {
        let last = strip.from + i64::from(strip.len - 1);
        let columns = strip.from.unsigned_abs().max(last.unsigned_abs());
        Reach {
            columns: self.columns.max(columns),
            rows: self.rows.max(strip.y.unsigned_abs()),
        }
    }

    /// Whether all cells of this reach are on the map, where the source cell is `(x, y)`.
    #[inline]
    pub(crate) fn is_inside(&self, map: &Map, x: u32, y: u32) -> bool
        requires reach { IsReach self.now }
        ensures inside { result ≡ true → IsInside self.now map.now x y }
    {
        let (x, y) = (u64::from(x), u64::from(y));
        self.columns <= x
            && x + self.columns < u64::from(map.width())
            && self.rows <= y
            && y + self.rows < u64::from(map.height())
    }
}

/// The reach of the cells of strips.
pub(crate) fn reach_of(strips: &[Strip]) -> Reach
    requires near { (i : ℕ) (c : Cell) → slice_get (cells_in strips.now) i ≡ Some c → IsNear c }
    ensures reach { IsReach result }
    ensures within { LieWithin result (cells_in strips.now) }
{
    let mut reach = Reach {
        columns: 0,
        rows: 0,
    };
    for strip in strips {
        if strip.len > 0 {
            reach = reach.with(*strip);
        }
    }
    reach
}
