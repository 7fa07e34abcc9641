//! The least weights of walks of cells to a goal.

ghost use Rattle.std.specs.Prelude.{◌≡◌, ◌≢◌, ℕ, ◌+◌, ◌*◌, ◌^◌, ◌<◌, ◌≤◌, IfOk, IfSome, IfNone, IsTrue, Some, List, true};
ghost use Rattle.std.specs.Prelude.{[], length, slice_index, slice_set, vec_capacity};
ghost use Rattle.sbpl_serial.specs.sbpl_graph.declared.TheConstants.{FAR};
ghost use Rattle.sbpl_heur.specs.Boards.{IsBoard, cell_count, map_of, start_of, end_of};
ghost use Rattle.sbpl_heur.specs.Spots.{IsSpot, IsReach, IsInner};
ghost use Rattle.sbpl_heur.specs.Followed.{Walking, IsWalking, IsUnderway, IsSinking, IsExpanded, IsDoubtful, IsDoubtfulBeside};
ghost use Rattle.sbpl_heur.specs.Followed.{IsSupported, Takes, HasNone, left, Lowers, LowerNone, Marks, AreRoused, IsRousedBy};
ghost use Rattle.sbpl_heur.specs.Followed.{IsShut, IsWall};
ghost use Rattle.sbpl_heur.specs.Followed.{HasLeast, distance, IsMarked};

use crate::cells::{Cells, Reach, Spot};
use crate::hop::Hop;
use crate::queue::Buckets;
use sbpl_cost::Env;
use sbpl_serial::{FAR, NoMemory};
use std::alloc::Global;
use std::marker::Model;

/// Where more than one in this number of cells has changed, the search begins anew.
const FEW: u32 = 64;

/// Where more than one in this number of cells is looked at before all doubts are settled, the search begins anew.
const LOOKS: u32 = 4;

/// The least weights of walks from all cells to a goal's cell. Each cell has a distance, which two facts make the least
/// weight, in whatever order they came about: each distance is as great as some step and the distance to which it leads,
/// and none is greater. Where few cells change, distances that have lost the first are forgotten (Ramalingam and Reps
/// 1996), and those that have lost the second are lowered.
#[derive(Drop)]
pub(crate) struct Walks {
    cells: Cells,
    goal: u32,
    distances: Vec<u64>,
    /// The cells whose distance may still lower those of others.
    waits: Vec<bool>,
    /// The cells whose distance may be too small.
    doubts: Vec<bool>,
    queue: Buckets,
}

impl Model for Walks {
    ghost use Rattle.sbpl_heur.specs.Followed.{Walking, IsWalking};

    ghost Value = { Walking };

    ghost view = { λ w. record { board = w.cells; goal = w.goal; distances = w.distances.items; waits = w.waits.items; doubts = w.doubts.items } };

    ghost invariant = { λ w. IsWalking (record {
      board = w.cells;
      goal = w.goal;
      distances = w.distances.items;
      waits = w.waits.items;
      doubts = w.doubts.items;
    }) };
}

/// The marked cell that the queue advises to take. Where it left some out for want of room, all are listed anew.
fn advised(marks: &[bool], queue: &mut Buckets, distances: &[u64]) -> Option<u32>
    requires few { length marks.now ≤ 2 ^ 28 }
{
    let first = queue.first(marks, distances);
    if first.is_some() || !queue.is_short() {
        return first;
    }
    queue.restart(least_of(marks, distances));
    list(marks, distances, queue);
    queue.first(marks, distances)
}

/// Takes a marked cell: the one that the queue advises. Where it advises none, all marks are looked at.
fn take(marks: &mut Vec<bool>, queue: &mut Buckets, distances: &[u64]) -> Option<u32>
    requires few { length marks.old.items ≤ 2 ^ 28 }
    ensures takes { IfSome result (λ cell. Takes marks.old.items marks.new.items cell) }
    ensures none { IfNone result (HasNone marks.old.items) }
    ensures kept { IfNone result (marks.new.items ≡ marks.old.items) }
{
    if let Some(cell) = advised(marks.as_slice(), queue, distances) {
        if (cell as usize) < marks.len() && marks[cell as usize] {
            marks[cell as usize] = false;
            return Some(cell);
        }
    }
    for cell in 0..marks.len() as u32 {
        if marks[cell as usize] {
            marks[cell as usize] = false;
            return Some(cell);
        }
    }
    None
}

/// The least distance of a marked cell.
fn least_of(marks: &[bool], distances: &[u64]) -> u64 {
    let mut least = FAR;
    for (marked, distance) in marks.iter().zip(distances.iter()) {
        if *marked {
            least = least.min(*distance);
        }
    }
    least
}

/// Puts all marked cells into the queue.
fn list(marks: &[bool], distances: &[u64], queue: &mut Buckets)
    requires few { length marks.now ≤ 2 ^ 28 }
{
    for (cell, marked) in marks.iter().enumerate() {
        if *marked {
            if let Some(distance) = distances.get(cell) {
                queue.put(cell as u32, *distance);
            }
        }
    }
}

/// Marks a cell, and puts it into the queue.
fn mark(marks: &mut Vec<bool>, queue: &mut Buckets, cell: u32, distance: u64)
    requires cell { cell < length marks.old.items }
    ensures marked { marks.new.items ≡ slice_set marks.old.items cell true }
{
    marks[cell as usize] = true;
    queue.put(cell, distance);
}

impl Walks {
    /// The walks to a goal over cells of these costs, without hops but with room for this number of them.
    pub(crate) fn new(
        alloc: Global,
        env: &Env,
        costs: &[u8],
        goal: u32,
        room: u32,
    ) -> Result<Walks, NoMemory>
        requires board { IsBoard (record { env = env.now; costs = costs.now; hops = []; room = room }) }
        requires goal { goal < length costs.now }
        ensures board { IfOk result (λ w. w.board ≡ record { env = env.now; costs = costs.now; hops = []; room = room }) }
        ensures goal { IfOk result (λ w. w.goal ≡ goal) }
        ensures least { IfOk result HasLeast }
    {
        let cells = Cells::new(alloc, env, costs, room)?;
        let count = cells.count();
        let mut distances = vec![in alloc; FAR; count as usize]?;
        let waits = vec![in alloc; false; count as usize]?;
        let doubts = vec![in alloc; false; count as usize]?;
        let queue = Buckets::new(alloc, count)?;
        distances[goal as usize] = 0;
        Ok(Walks {
            cells,
            goal,
            distances,
            waits,
            doubts,
            queue,
        })
    }

    /// The least weight of a walk from a cell to the goal, or `FAR` where there is none.
    pub(crate) fn weight(&self, cell: u32) -> u64
        requires cell { cell < cell_count self.now.board }
        ensures value { result ≡ distance self.now cell }
    {
        self.distances[cell as usize]
    }

    /// Makes these the walks over cells of these costs by these hops, and finds their weights.
    pub(crate) fn follow(&mut self, env: &Env, costs: &[u8], hops: &[Hop])
        requires same_size { length costs.now ≡ cell_count self.old.board }
        requires room { length hops.now ≤ self.old.board.room }
        requires board { IsBoard (record { env = env.now; costs = costs.now; hops = hops.now; room = self.old.board.room }) }
        requires least { HasLeast self.old }
        ensures board { self.new.board
            ≡ record { env = env.now; costs = costs.now; hops = hops.now; room = self.old.board.room } }
        ensures goal { self.new.goal ≡ self.old.goal }
        ensures least { HasLeast self.new }
    {
        if !self.repair(env, costs, hops) {
            self.begin(env, costs, hops);
        }
        self.settle();
    }

    /// Begins anew with an environment, these costs and these hops: the goal alone has a distance.
    fn begin(&mut self, env: &Env, costs: &[u8], hops: &[Hop])
        requires same_size { length costs.now ≡ cell_count self.old.board }
        requires room { length hops.now ≤ self.old.board.room }
        requires board { IsBoard (record { env = env.now; costs = costs.now; hops = hops.now; room = self.old.board.room }) }
        ensures board { self.new.board
            ≡ record { env = env.now; costs = costs.now; hops = hops.now; room = self.old.board.room } }
        ensures goal { self.new.goal ≡ self.old.goal }
        ensures sinking { IsSinking self.new }
    {
        self.cells.renew(env, costs, hops);
        self.distances.fill(FAR);
        self.distances[self.goal as usize] = 0;
        self.waits.fill(false);
        self.waits[self.goal as usize] = true;
    }

    /// Lowers distances until no arc lowers one.
    fn settle(&mut self)
        requires sinking { IsSinking self.old }
        ensures board { self.new.board ≡ self.old.board }
        ensures goal { self.new.goal ≡ self.old.goal }
        ensures least { HasLeast self.new }
    {
        let reach = self.cells.reach();
        self.shut();
        self.list_waiting();
        while let Some(cell) = self.take_waiting() {
            self.expand(cell, reach);
        }
        self.open();
    }

    /// Gives obstacles distance 0 while distances are lowered, so that none of theirs seems worth lowering.
    fn shut(&mut self)
        requires sinking { IsSinking self.old }
        ensures rest { self.new ≡ record self.old { distances = self.new.distances } }
        ensures shut { IsShut self.new }
        ensures sizes { IsWalking self.new }
    {
        for cell in 0..self.cells.count() {
            if self.is_blocked(cell) {
                self.set_distance(cell, 0);
            }
        }
    }

    /// Gives obstacles distance `FAR` again.
    fn open(&mut self)
        requires shut { IsShut self.old }
        ensures rest { self.new ≡ record self.old { distances = self.new.distances } }
        ensures sinking { IsSinking self.new }
        ensures sizes { IsWalking self.new }
    {
        for cell in 0..self.cells.count() {
            if self.is_blocked(cell) {
                self.set_distance(cell, FAR);
            }
        }
    }

    /// Whether a cell is an obstacle, and not the goal.
    fn is_blocked(&self, cell: u32) -> bool
        requires cell { cell < cell_count self.now.board }
        ensures wall { IsTrue result → IsWall self.now.board cell }
        ensures beside { IsTrue result → cell ≢ self.now.goal }
        ensures other { IsWall self.now.board cell → cell ≢ self.now.goal → IsTrue result }
    {
        cell != self.goal && self.cells.is_wall(cell)
    }

    /// Gives a cell other than the goal a distance.
    fn set_distance(&mut self, cell: u32, distance: u64)
        requires cell { cell < cell_count self.old.board }
        requires beside { cell ≢ self.old.goal }
        requires low { distance ≤ FAR }
        ensures set { self.new ≡ record self.old { distances = slice_set self.old.distances cell distance } }
        ensures sizes { IsWalking self.old }
    {
        self.distances[cell as usize] = distance;
    }

    /// Puts the waiting cells into the queue.
    fn list_waiting(&mut self)
        ensures same { self.new ≡ self.old }
    {
        let _count = self.cells.count();
        let least = least_of(self.waits.as_slice(), self.distances.as_slice());
        self.queue.clear(self.cells.hop_costs(), least);
        list(
            self.waits.as_slice(),
            self.distances.as_slice(),
            &mut self.queue,
        );
    }

    /// Takes a waiting cell.
    fn take_waiting(&mut self) -> Option<u32>
        ensures takes { IfSome result (λ cell. Takes self.old.waits self.new.waits cell) }
        ensures rest { self.new ≡ record self.old { waits = self.new.waits } }
        ensures none { IfNone result (HasNone self.old.waits) }
        ensures kept { IfNone result (self.new ≡ self.old) }
        ensures sizes { IsWalking self.new }
    {
        let _count = self.cells.count();
        take(&mut self.waits, &mut self.queue, self.distances.as_slice())
    }

    /// Lowers the distances of the cells from which arcs lead into a cell.
    fn expand(&mut self, cell: u32, reach: Reach)
        requires cell { cell < cell_count self.old.board }
        requires reach { IsReach self.old.board.hops reach }
        requires expanded { IsExpanded self.old cell 0 }
        ensures shut { IsShut self.new }
        ensures board { self.new.board ≡ self.old.board }
        ensures goal { self.new.goal ≡ self.old.goal }
        ensures left { left self.new ≤ left self.old }
    {
        let spot = self.cells.spot_of(cell);
        let is_inner = self.cells.is_inner(spot, reach);
        let fan = self.cells.fan();
        let mut k = 0;
        while k < fan {
            k = self.next_lower(cell, spot, k, is_inner);
            if k >= fan {
                return;
            }
            self.lower(cell, spot, k);
            k += 1;
        }
    }

    /// The first hop from `k` on that may lower the distance of the cell from which it leads into a cell, or how many hops there
    /// are. At an inner cell hops that lower nothing are passed over, by the cell's own cost alone.
    fn next_lower(&self, cell: u32, spot: Spot, k: u32, is_inner: bool) -> u32
        requires cell { cell < cell_count self.now.board }
        requires spot { IsSpot self.now.board.env cell spot }
        requires hop { k < length self.now.board.hops }
        requires inner { IsTrue is_inner → IsInner self.now.board.env self.now.board.hops spot }
        ensures from { k ≤ result }
        ensures within { result ≤ length self.now.board.hops }
        ensures skipped { LowerNone self.now cell k result }
    {
        if !is_inner {
            return k;
        }
        self.cells
            .next_nearer(self.distances.as_slice(), cell, spot, k)
    }

    /// Lowers the distance of the cell from which hop `k` leads into a cell, if it may.
    fn lower(&mut self, cell: u32, spot: Spot, k: u32)
        requires cell { cell < cell_count self.old.board }
        requires spot { IsSpot self.old.board.env cell spot }
        requires hop { k < length self.old.board.hops }
        ensures lowers { Lowers self.old self.new cell k }
        ensures sizes { IsWalking self.old }
    {
        let Some(start) = self.cells.before(cell, spot, k) else {
            return;
        };
        let weight = self.cells.weight(start, cell, k);
        let through = weight.saturating_add(self.distances[cell as usize]);
        if through < self.distances[start as usize] {
            self.distances[start as usize] = through;
            mark(&mut self.waits, &mut self.queue, start, through);
        }
    }

    /// Writes the costs that have changed, where that is the only change, and they are few, and forgets the distances that
    /// have lost their support. Answers whether that was done.
    fn repair(&mut self, env: &Env, costs: &[u8], hops: &[Hop]) -> bool
        requires same_size { length costs.now ≡ cell_count self.old.board }
        requires bytes { (i : ℕ) → slice_index costs.now i ≤ 255 }
        requires least { HasLeast self.old }
        ensures same_size { cell_count self.new.board ≡ cell_count self.old.board }
        ensures room { self.new.board.room ≡ self.old.board.room }
        ensures goal { self.new.goal ≡ self.old.goal }
        ensures board { IsTrue result → self.new.board
            ≡ record { env = env.now; costs = costs.now; hops = hops.now; room = self.old.board.room } }
        ensures sinking { IsTrue result → IsSinking self.new }
    {
        let few = self.cells.count() / FEW;
        if !self.cells.is_made_of(env, hops) || self.cells.count_changed(costs) > few {
            return false;
        }
        self.write_changed(costs);
        self.check_all()
    }

    /// Writes each of these costs that differs from the cell's, in turn.
    fn write_changed(&mut self, costs: &[u8])
        requires size { length costs.now ≡ cell_count self.old.board }
        requires bytes { (i : ℕ) → slice_index costs.now i ≤ 255 }
        requires least { HasLeast self.old }
        ensures board { self.new.board ≡ record self.old.board { costs = costs.now } }
        ensures goal { self.new.goal ≡ self.old.goal }
        ensures doubtful { IsDoubtful self.new }
    {
        self.clear_marks();
        for i in 0..costs.len() {
            if !self.cells.has_cost(i as u32, costs[i]) {
                self.write(i as u32, costs[i]);
            }
        }
    }

    /// Takes all marks away.
    fn clear_marks(&mut self)
        ensures rest { self.new ≡ record self.old { waits = self.new.waits; doubts = self.new.doubts } }
        ensures sizes { IsWalking self.new }
    {
        self.doubts.fill(false);
        self.waits.fill(false);
    }

    /// Gives a cell a cost, and marks the cells whose distances that may change.
    fn write(&mut self, cell: u32, cost: u8)
        requires cell { cell < cell_count self.old.board }
        requires doubtful { IsDoubtful self.old }
        ensures board { self.new.board ≡ record self.old.board { costs = slice_set self.old.board.costs cell cost } }
        ensures goal { self.new.goal ≡ self.old.goal }
        ensures doubtful { IsDoubtful self.new }
    {
        self.rouse_around(cell);
        self.set(cell, cost);
    }

    /// Writes the cost of a cell, which comes into doubt and waits.
    fn set(&mut self, cell: u32, cost: u8)
        requires cell { cell < cell_count self.old.board }
        ensures set { self.new ≡ record self.old {
          board = record self.old.board { costs = slice_set self.old.board.costs cell cost };
          waits = slice_set self.old.waits cell true;
          doubts = slice_set self.old.doubts cell true;
        } }
        ensures sizes { IsWalking self.old }
        ensures kept { IsWalking self.new }
    {
        self.cells.set(cell, cost);
        self.waits[cell as usize] = true;
        self.doubts[cell as usize] = true;
    }

    /// Marks the cells whose distances that of a cell may have made: those from which hops lead to it, and which lie farther from
    /// the goal, are in doubt. Those to which hops lead from it wait, since they may lower its own.
    fn rouse_around(&mut self, cell: u32)
        requires cell { cell < cell_count self.old.board }
        ensures marks { Marks self.old self.new }
        ensures roused { AreRoused self.new cell (distance self.old cell) (length self.old.board.hops) }
    {
        let spot = self.cells.spot_of(cell);
        let was = self.distances[cell as usize];
        for k in 0..self.cells.fan() {
            self.rouse(cell, spot, was, k);
        }
    }

    /// Marks the cell from which hop `k` leads to a cell, and the one to which it leads from there.
    fn rouse(&mut self, cell: u32, spot: Spot, was: u64, k: u32)
        requires spot { IsSpot self.old.board.env cell spot }
        requires hop { k < length self.old.board.hops }
        ensures marks { Marks self.old self.new }
        ensures roused { IsRousedBy self.new cell was k }
    {
        self.doubt_before(cell, spot, was, k);
        self.wake_after(cell, spot, k);
    }

    /// The cell from which hop `k` leads to a cell comes into doubt, if it was reached and lies farther from the goal than this.
    fn doubt_before(&mut self, cell: u32, spot: Spot, was: u64, k: u32)
        requires spot { IsSpot self.old.board.env cell spot }
        requires hop { k < length self.old.board.hops }
        ensures marks { Marks self.old self.new }
        ensures doubted { (a : ℕ) → start_of self.old.board cell k ≡ Some a → was < distance self.old a
            → distance self.old a < FAR → IsMarked self.new.doubts a }
    {
        let Some(start) = self.cells.before(cell, spot, k) else {
            return;
        };
        self.doubt(start, was);
    }

    /// The cell to which hop `k` leads from a cell waits, if it was reached.
    fn wake_after(&mut self, cell: u32, spot: Spot, k: u32)
        requires spot { IsSpot self.old.board.env cell spot }
        requires hop { k < length self.old.board.hops }
        ensures marks { Marks self.old self.new }
        ensures waits { (a : ℕ) → end_of self.old.board cell k ≡ Some a → distance self.old a < FAR
            → IsMarked self.new.waits a }
    {
        let Some(end) = self.cells.after(cell, spot, k) else {
            return;
        };
        self.wake(end);
    }

    /// A cell comes into doubt if it was reached and lies farther from the goal than this.
    fn doubt(&mut self, cell: u32, was: u64)
        requires cell { cell < cell_count self.old.board }
        ensures marks { Marks self.old self.new }
        ensures doubted { was < distance self.old cell → distance self.old cell < FAR → IsMarked self.new.doubts cell }
    {
        let distance = self.distances[cell as usize];
        if was < distance && distance < FAR {
            mark(&mut self.doubts, &mut self.queue, cell, distance);
        }
    }

    /// A cell waits if it was reached.
    fn wake(&mut self, cell: u32)
        requires cell { cell < cell_count self.old.board }
        ensures marks { Marks self.old self.new }
        ensures waits { distance self.old cell < FAR → IsMarked self.new.waits cell }
    {
        if self.distances[cell as usize] < FAR {
            self.waits[cell as usize] = true;
        }
    }

    /// Takes cells that are in doubt, and forgets the distances that have no support. Answers whether none is left; where that
    /// takes too many looks, it gives up.
    fn check_all(&mut self) -> bool
        requires doubtful { IsDoubtful self.old }
        ensures board { self.new.board ≡ self.old.board }
        ensures goal { self.new.goal ≡ self.old.goal }
        ensures sinking { IsTrue result → IsSinking self.new }
    {
        self.list_doubted();
        for _look in 0..self.cells.count() / LOOKS {
            let Some(cell) = self.take_doubted() else {
                return true;
            };
            self.check(cell);
        }
        false
    }

    /// Puts the cells that are in doubt into the queue.
    fn list_doubted(&mut self)
        ensures same { self.new ≡ self.old }
    {
        let _count = self.cells.count();
        let least = least_of(self.doubts.as_slice(), self.distances.as_slice());
        self.queue.clear(self.cells.hop_costs(), least);
        list(
            self.doubts.as_slice(),
            self.distances.as_slice(),
            &mut self.queue,
        );
    }

    /// Takes a cell that is in doubt.
    fn take_doubted(&mut self) -> Option<u32>
        ensures takes { IfSome result (λ cell. Takes self.old.doubts self.new.doubts cell) }
        ensures rest { self.new ≡ record self.old { doubts = self.new.doubts } }
        ensures none { IfNone result (HasNone self.old.doubts) }
        ensures kept { IfNone result (self.new ≡ self.old) }
        ensures sizes { IsWalking self.new }
    {
        let _count = self.cells.count();
        take(&mut self.doubts, &mut self.queue, self.distances.as_slice())
    }

    /// Forgets the distance of a cell where it has no support.
    fn check(&mut self, cell: u32)
        requires cell { cell < cell_count self.old.board }
        requires doubtful { IsDoubtfulBeside self.old cell }
        ensures board { self.new.board ≡ self.old.board }
        ensures goal { self.new.goal ≡ self.old.goal }
        ensures doubtful { IsDoubtful self.new }
    {
        if cell != self.goal && self.weight(cell) < FAR && !self.is_supported(cell) {
            self.raise(cell);
        }
    }

    /// Whether a reached cell is supported.
    fn is_supported(&self, cell: u32) -> bool
        requires cell { cell < cell_count self.now.board }
        requires near { distance self.now cell < FAR }
        ensures supported { IsTrue result → IsSupported self.now.board self.now.distances cell }
    {
        let spot = self.cells.spot_of(cell);
        for k in 0..self.cells.fan() {
            if self.is_held(cell, spot, k) {
                return true;
            }
        }
        false
    }

    /// Whether hop `k` supports a cell.
    fn is_held(&self, cell: u32, spot: Spot, k: u32) -> bool
        requires cell { cell < cell_count self.now.board }
        requires spot { IsSpot self.now.board.env cell spot }
        requires hop { k < length self.now.board.hops }
        requires near { distance self.now cell < FAR }
        ensures supported { IsTrue result → IsSupported self.now.board self.now.distances cell }
    {
        let Some(end) = self.cells.after(cell, spot, k) else {
            return false;
        };
        let weight = self.cells.weight(cell, end, k);
        if weight.saturating_add(self.distances[end as usize]) <= self.distances[cell as usize] {
            return true;
        }
        false
    }

    /// Forgets the distance of a cell, and doubts those of the cells that leant on it.
    fn raise(&mut self, cell: u32)
        requires cell { cell < cell_count self.old.board }
        requires beside { cell ≢ self.old.goal }
        requires doubtful { IsDoubtfulBeside self.old cell }
        ensures board { self.new.board ≡ self.old.board }
        ensures goal { self.new.goal ≡ self.old.goal }
        ensures doubtful { IsDoubtful self.new }
    {
        self.rouse_around(cell);
        self.forget(cell);
    }

    /// Forgets the distance of a cell.
    fn forget(&mut self, cell: u32)
        requires cell { cell < cell_count self.old.board }
        requires beside { cell ≢ self.old.goal }
        ensures forgotten { self.new ≡ record self.old { distances = slice_set self.old.distances cell FAR } }
        ensures sizes { IsWalking self.old }
    {
        self.distances[cell as usize] = FAR;
    }
}
