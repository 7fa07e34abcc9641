//! Quotients and square roots, rounded up.

ghost use Rattle.std.specs.Prelude.{◌≡◌, ℕ, ◌+◌, ◌*◌, ◌^◌, ◌<◌, ◌≤◌};

/// The least `q` with `q * b >= a`.
pub fn ceil_div(a: u128, b: u128) -> u128
    requires positive { 0 < b }
    ensures enough { a ≤ result * b }
    ensures least { (q : ℕ) → a ≤ q * b → result ≤ q }
{
    if a % b == 0 { a / b } else { a / b + 1 }
}

/// A power of two whose square is at least `n`.
fn root_bound(n: u128) -> u64
    requires small { n ≤ 2 ^ 126 }
    ensures some { 0 < result }
    ensures enough { n ≤ result * result }
    ensures small { result ≤ 2 ^ 63 }
{
    if n <= 1 {
        return 1;
    }
    1 << ((n - 1).ilog2() / 2 + 1)
}

/// The least `r` with `r * r >= n`.
pub fn ceil_root(n: u128) -> u64
    requires small { n ≤ 2 ^ 126 }
    ensures enough { n ≤ result * result }
    ensures least { (r : ℕ) → n ≤ r * r → result ≤ r }
{
    if n == 0 {
        return 0;
    }
    // low is too small, and high is not.
    let mut low: u64 = 0;
    let mut high: u64 = root_bound(n);
    while low + 1 < high {
        let middle = (low + high) / 2;
        let square = u128::from(middle) * u128::from(middle);
        if square < n {
            low = middle;
        } else {
            high = middle;
        }
    }
    high
}
