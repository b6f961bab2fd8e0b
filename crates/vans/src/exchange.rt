// A van's squared distance at a time, and when two vans trade places.
//
// A van at p with velocity v has at time t the squared distance p·p + 2 (p·v) t + (v·v) t², so the distances
// of two vans differ by a parabola.
ghost use Rattle.std.specs.Prelude.{◌≡◌, ℕ, ◌-ℤ◌};
ghost use Rattle.crossing.specs.Line.{line};
ghost use Rattle.parabola.specs.Height.{height_of};
ghost use Rattle.vans.specs.Distance.{distance_at};
ghost use Rattle.vans.specs.Spread.{start_of, tilt_of, bend_of};
ghost use Rattle.vans.specs.Distances.{distances_sized, distances_few, distances_turn};
ghost use Rattle.std.proofs.Common.{rules};

use crate::van::Van;
use crate::vector::Vector;
use cards::{ExchangingCard, PricedCard, TurningCard};
use crossing::line_at;
use family::Time;
use parabola::Parabola;

impl PricedCard for Van {
    ghost amount = { distance_at };

    ghost swaps = { 2 };

    ghost sized = { distances_sized };

    ghost few = { distances_few };

    ghost bounded = { Prim.search rules };

    ghost turns = { distances_turn };

    fn amount_at(&self, t: u32) -> i64 {
        self.distance_after(Time::from(t))
    }

    fn bound() -> u8 {
        2
    }
}

impl ExchangingCard for Van {
    // This one is at or before the other while the other's distance less this one's is not negative.
    fn next_exchange(&self, other: &Van, t: u32, end: u32) -> Option<u32> {
        self.gap_to(other).next_crossing(t, end)
    }
}

impl TurningCard for Van {
    fn turning(&self, other: &Van) -> u32 {
        other.gap_to(self).turning()
    }
}

impl Van {
    // The other's squared distance less this one's.
    fn gap_to(&self, other: &Van) -> Parabola
        ensures { (t : ℕ) → height_of result t ≡ distance_at other.now t -ℤ distance_at self.now t }
    {
        let own = self.distance();
        let others = other.distance();
        Parabola {
            start: others.start - own.start,
            tilt: others.tilt - own.tilt,
            bend: others.bend - own.bend,
        }
    }

    // The squared distance over time.
    #[tactic(auto, using(crate::specs::Distances::start_size, crate::specs::Distances::tilt_size, crate::specs::Distances::bend_size))]
    fn distance(&self) -> Parabola
        ensures start { result.start ≡ start_of self.now }
        ensures tilt { result.tilt ≡ tilt_of self.now }
        ensures bend { result.bend ≡ bend_of self.now }
    {
        let position = self.position();
        let velocity = self.velocity();
        Parabola {
            start: position.dot(position),
            tilt: position.dot(velocity),
            bend: velocity.dot(velocity),
        }
    }

    // The squared distance at a time.
    fn distance_after(&self, time: Time) -> i64
        ensures { result ≡ distance_at self.now time.number }
    {
        let position = self.position_at(time);
        position.dot(position)
    }

    // Where it is at a time.
    fn position_at(&self, time: Time) -> Vector
        ensures x { result.x ≡ line self.now.px self.now.vx time.number }
        ensures y { result.y ≡ line self.now.py self.now.vy time.number }
    {
        Vector {
            x: line_at(self.px, i32::from(self.vx), time.into()),
            y: line_at(self.py, i32::from(self.vy), time.into()),
        }
    }

    // Where it is at opening.
    fn position(&self) -> Vector
        ensures x { result.x ≡ self.now.px }
        ensures y { result.y ≡ self.now.py }
    {
        Vector {
            x: i64::from(self.px),
            y: i64::from(self.py),
        }
    }

    // How far it goes in a minute.
    fn velocity(&self) -> Vector
        ensures x { result.x ≡ self.now.vx }
        ensures y { result.y ≡ self.now.vy }
    {
        Vector {
            x: i64::from(self.vx),
            y: i64::from(self.vy),
        }
    }
}
