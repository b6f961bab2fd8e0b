// When the height of a parabola changes its sign.
ghost use Rattle.std.specs.Prelude.{◌≡◌, ℕ, ◌≤◌, pos, ◌≢◌, unsigned_abs};
ghost use Rattle.family.specs.Order.{last_time, NextChange};
ghost use Rattle.crossing.specs.Line.{line};
ghost use Rattle.parabola.specs.Height.{height_of, not_below};
ghost use Rattle.parabola.specs.Slope.{half_slope_of, discriminant_of, ReachOf};

use crate::curve::Parabola;
use crate::line::Line;
use crate::root::root;
use family::Span;

impl Parabola {
    // The least u with t < u ≤ end at which "the height is not negative" differs from what it is at t, or
    // none; a time above the last is read as the last.
    //
    // With no bend the height is a straight line. With one the sign changes where half the slope comes within
    // reach of 0 or leaves it.
    pub fn next_crossing(&self, t: u32, end: u32) -> Option<u32>
        ensures { NextChange (not_below self.now) t end result }
    {
        let span = Span::new(t, end);
        if self.bend == 0 {
            return self.straight().next_crossing(span);
        }
        self.half_slope().band_crossing(self.reach()?, span)
    }

    // The height where there is no bend.
    fn straight(&self) -> Line
        requires { self.now.bend ≡ pos 0 }
        ensures { (t : ℕ) → line result.start result.step t ≡ height_of self.now t }
    {
        Line {
            start: self.start,
            step: 2 * self.tilt,
        }
    }

    #[tactic(auto, using(crate::proofs::Sizes::slope_size))]
    fn half_slope(&self) -> Line
        ensures value { (t : ℕ) → line result.start result.step t ≡ half_slope_of self.now t }
        ensures bound { (t : ℕ) → t ≤ last_time → unsigned_abs (line result.start result.step t) ≤ 4001000000000 }
    {
        Line {
            start: self.tilt,
            step: self.bend,
        }
    }

    // How far from 0 half the slope is at most while the height is in the hollow, or none where it never is.
    // The hollow is what is below 0 of a parabola that opens upward, and what is not of one that opens
    // downward, so 0 itself is in the hollow of the second alone; there the square of half the slope is the
    // discriminant.
    fn reach(&self) -> Option<u32>
        requires { self.now.bend ≢ pos 0 }
        ensures { ReachOf self.now result }
    {
        if self.bend > 0 {
            return root(self.discriminant() - 1);
        }
        root(self.discriminant())
    }

    // tilt² − bend × start.
    fn discriminant(&self) -> i64
        ensures value { result ≡ discriminant_of self.now }
        ensures bound { unsigned_abs result ≤ 1400000000000000000 }
    {
        self.tilt * self.tilt - self.bend * self.start
    }
}
