// Roots of whole numbers.
ghost use Rattle.std.specs.Prelude.{◌+◌, ◌*◌, ◌<◌, ◌≤◌, ◌↔◌, IsTrue};
ghost use Rattle.parabola.specs.Reach.{RootOf};

use std::num::{nearest_u64_to_f64, saturating_f64_to_u32};

// The root of n, rounded down; a negative number has none.
pub(crate) fn root(n: i64) -> Option<u32>
    ensures { RootOf n result }
{
    (n >= 0).then(|| whole_root(n.unsigned_abs()))
}

// The same of a number that has one. A float's root is it or, by its rounding, one more; were it farther off,
// the library would search.
fn whole_root(n: u64) -> u32
    ensures within { result * result ≤ n }
    ensures next { n < (result + 1) * (result + 1) }
{
    let near = saturating_f64_to_u32(nearest_u64_to_f64(n).sqrt());
    let below = near.saturating_sub(1);
    if is_root(near, n) {
        near
    } else if is_root(below, n) {
        below
    } else {
        n.isqrt() as u32
    }
}

// Whether r is the root of n, rounded down.
fn is_root(r: u32, n: u64) -> bool
    ensures { IsTrue result ↔ ((r * r ≤ n) × (n < (r + 1) * (r + 1))) }
{
    let (r, square) = (u64::from(r), u64::from(r) * u64::from(r));
    square <= n && n - square <= 2 * r
}
