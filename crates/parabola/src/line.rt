// A number that moves by the same step at each time, and when it changes its sign or enters or leaves a band
// around 0.
//
// One that rises is below the band first, then in it, then above it, and it may step right over it. So from
// below it enters where it first reaches the lower edge, unless it is above the upper edge there; from inside
// it leaves where it first passes the upper edge; and from above nothing changes any more.
ghost use Rattle.std.specs.Prelude.{◌≡◌, ℕ, ◌≤◌, pos, ◌≤ℤ◌, unsigned_abs};
ghost use Rattle.family.specs.Order.{FirstChange};
ghost use Rattle.crossing.specs.Line.{line, not_negative};
ghost use Rattle.parabola.specs.Reach.{in_reach};

use crossing::next_crossing;
use family::{Span, Time};

// Its numbers are too large for `line_at`, which takes any of 32 bits and asks nothing.
#[derive(Clone, Copy)]
pub(crate) struct Line {
    // The number at time 0.
    pub start: i64,
    pub step: i64,
    // So small that the number fits 64 bits at each time.
    ghost near: { unsigned_abs start ≤ 100000000000 },
    ghost slow: { unsigned_abs step ≤ 2000000000 },
}

impl Line {
    pub fn at(self, t: Time) -> i64
        ensures value { result ≡ line self.start self.step t.number }
        ensures bound { unsigned_abs result ≤ 2000100000000000 }
    {
        self.start + self.step * i64::from(u32::from(t))
    }

    // The least time of the span, after its first, at which "the number is not negative" differs from what it
    // is at the first, or none.
    pub fn next_crossing(self, span: Span) -> Option<u32>
        ensures { FirstChange (not_negative self.start self.step) span.from.number span.end.number result }
    {
        next_crossing(
            self.at(span.from),
            self.step,
            span.from.into(),
            span.end.into(),
        )
    }

    // The same of "the number is at most reach away from 0".
    pub fn band_crossing(self, reach: u32, span: Span) -> Option<u32>
        ensures { FirstChange (λ u. in_reach reach (line self.start self.step u)) span.from.number span.end.number result }
    {
        let line = self.rising();
        let reach = i64::from(reach);
        let now = line.at(span.from);
        if now > reach {
            return None;
        }
        if now >= -reach {
            return next_crossing(reach - now, -line.step, span.from.into(), span.end.into());
        }
        let u = next_crossing(now + reach, line.step, span.from.into(), span.end.into())?;
        (line.at(Time::from(u)) <= reach).then_some(u)
    }

    // The line, or its opposite where that rises: the opposite is as far from 0.
    fn rising(self) -> Line
        ensures rises { pos 0 ≤ℤ result.step }
        ensures far { (t : ℕ) → unsigned_abs (line result.start result.step t) ≡ unsigned_abs (line self.start self.step t) }
    {
        if self.step >= 0 {
            return self;
        }
        Line {
            start: -self.start,
            step: -self.step,
        }
    }
}
