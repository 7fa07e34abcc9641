//! The bound of a path, in thousandths (this project's profile).

ghost use Rattle.std.specs.Prelude.{◌≡◌, ◌<◌, ◌↔◌, IfSome, IsNone};
ghost use Rattle.sbpl_graph.specs.Bound.{IsBound};

/// The bound of a path of this cost in thousandths, where every path costs at least `low`: the
/// least whole number of at least 1000 by which `low` reaches 1000 times the cost. There is none
/// exactly where the cost is above 0 and `low` is 0.
pub fn bound_of(cost: u64, low: u64) -> Option<u128>
    ensures least { IfSome result (λ b. IsBound cost low b) }
    ensures none { IsNone result ↔ ((0 < cost) × (low ≡ 0)) }
{
    if cost == 0 {
        return Some(1000);
    }
    if low == 0 {
        return None;
    }
    let thousandths = (1000 * u128::from(cost)).div_ceil(u128::from(low));
    Some(thousandths.max(1000))
}
