// First changes found by halving.
ghost use Rattle.std.specs.Prelude.{ℕ, Bool};
ghost use Rattle.family.specs.Order.{last_time, FirstChange};
ghost use Rattle.adapter.specs.Parts.{ChangesOnce, Tells};

use family::Span;

// The next change of any fact that changes at most once up to the turning time and at most once from there on:
// that of the side before the turning time, or else that of the side after it.
pub(crate) fn next_change<F: Fn(u32) -> bool>(holds: F, turning: u32, span: Span) -> Option<u32>
    requires { F.IsAlwaysCallable holds }
    ensures { (p : ℕ → Bool) → Tells (F.post holds) p → ChangesOnce p 0 turning → ChangesOnce p turning last_time → FirstChange p span.from.number span.end.number result }
{
    let (from, end) = (u32::from(span.from), u32::from(span.end));
    let middle = turning.max(from).min(end);
    change_by_halving(&holds, from, middle).or_else(|| change_by_halving(&holds, middle, end))
}

// The first change from a time to an end, of any fact that changes at most once between them: there is none where
// it is the same at both.
fn change_by_halving<F: Fn(u32) -> bool>(holds: &F, from: u32, end: u32) -> Option<u32>
    requires { F.IsAlwaysCallable holds.now }
    ensures { (p : ℕ → Bool) → Tells (F.post holds.now) p → ChangesOnce p from end → FirstChange p from end result }
{
    if end <= from {
        return None;
    }
    let held = holds(from);
    if holds(end) == held {
        return None;
    }
    // It counts nothing: the two ends close in on the change, and std has no such search over times.
    let mut same = from;
    let mut differs = end;
    while differs - same > 1 {
        // Measured: `same.midpoint(differs)`, which halves both numbers first, is slower.
        let middle = same + (differs - same) / 2;
        if holds(middle) == held {
            same = middle;
        } else {
            differs = middle;
        }
    }
    Some(differs)
}
