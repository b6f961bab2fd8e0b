// Crossings: what a number that moves by the same step at each time comes to, and when it first changes its
// sign.
//
// The number is gap + drift × w, w times after the start. One that starts at 0 or above and falls is
// negative for the first time one step after the last w with drift × w within the gap; one that starts
// below 0 and rises is not negative any more as soon as it is 0. So neither way divides a negative
// number, and nothing is rounded toward the wrong side.
//
// Example: from 300 by −6 a time the number is 0 at w = 50, still not negative, and −6 at w = 51, the
// answer. From −300 by 6 it is 0 at w = 50, and that is the answer.
#![tactic(auto)]

ghost use Rattle.std.specs.Prelude.{◌≡◌, ◌-◌};
ghost use Rattle.family.specs.Order.{FirstChange};
ghost use Rattle.crossing.specs.Line.{line, not_negative, FirstEver};

// The number start + step × times. It fits 64 bits whatever the arguments are.
pub fn line_at(start: i32, step: i32, times: u32) -> i64
    ensures { result ≡ line start step times }
{
    i64::from(start) + i64::from(step) * i64::from(times)
}

// The least u with from < u ≤ end at which "gap + drift × (u − from) is not negative" differs from what
// it is at from, or none.
pub fn next_crossing(gap: i64, drift: i64, from: u32, end: u32) -> Option<u32>
    ensures { FirstChange (λ u. not_negative gap drift (u - from)) from end result }
{
    let steps = wait(gap, drift)?;
    let left = u64::from(end.saturating_sub(from));
    (steps <= left).then(|| from + steps as u32)
}

// The least w above 0 at which "gap + drift × w is not negative" differs from what it is at 0, or none.
fn wait(gap: i64, drift: i64) -> Option<u64>
    ensures { FirstEver (not_negative gap drift) result }
{
    if gap >= 0 && drift < 0 {
        Some(gap.unsigned_abs() / drift.unsigned_abs() + 1)
    } else if gap < 0 && drift > 0 {
        Some((gap.unsigned_abs() - 1) / drift.unsigned_abs() + 1)
    } else {
        None
    }
}
