// Where a parabola turns.
ghost use Rattle.std.specs.Prelude.{◌≡◌, ℕ, ◌+◌, ◌-ℤ◌};
ghost use Rattle.family.specs.Amounts.{TurnsBy};
ghost use Rattle.crossing.specs.Line.{line};
ghost use Rattle.parabola.specs.Height.{height_of};

use crate::curve::Parabola;
use crate::line::Line;
use family::{LAST_TIME, Span};

impl Parabola {
    // A time up to which the height never falls or never rises, and from which on it again never falls or
    // never rises: the first at which the step to the next time has another sign than the first step, or the
    // last time if no step has.
    pub fn turning(&self) -> u32
        ensures { TurnsBy (height_of self.now) result }
    {
        self.steps()
            .next_crossing(Span::new(0, LAST_TIME))
            .unwrap_or(LAST_TIME)
    }

    // The steps from each time to the next. They lie on a straight line, so they change their sign no more
    // than once.
    fn steps(&self) -> Line
        ensures { (t : ℕ) → line result.start result.step t ≡ height_of self.now (t + 1) -ℤ height_of self.now t }
    {
        Line {
            start: self.bend + 2 * self.tilt,
            step: 2 * self.bend,
        }
    }
}
