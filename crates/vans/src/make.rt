// Making a van, and reading back what it was made of.
ghost use Rattle.std.specs.Prelude.{◌≡◌};
ghost use Rattle.vans.specs.Distance.{Making};

use crate::van::Van;
use family::Refusal;

const FARTHEST: u32 = 100_000;

const FASTEST: u16 = 1_000;

impl Van {
    // A van at a position in metres with a velocity in metres a minute, east and north. Numbers outside
    // the limits are refused (3).
    pub fn new(px: i32, py: i32, vx: i16, vy: i16) -> Result<Van, Refusal>
        ensures { Making px py vx vy result }
    {
        if px.unsigned_abs() <= FARTHEST
            && py.unsigned_abs() <= FARTHEST
            && vx.unsigned_abs() <= FASTEST
            && vy.unsigned_abs() <= FASTEST
        {
            Ok(Van { px, py, vx, vy })
        } else {
            Err(Refusal::OutsideLimits)
        }
    }

    // Where it is at opening, the first coordinate.
    pub fn px(&self) -> i32
        ensures { result ≡ self.now.px }
    {
        self.px
    }

    // The second coordinate.
    pub fn py(&self) -> i32
        ensures { result ≡ self.now.py }
    {
        self.py
    }

    // How far it goes in a minute, along the first coordinate.
    pub fn vx(&self) -> i16
        ensures { result ≡ self.now.vx }
    {
        self.vx
    }

    // And along the second.
    pub fn vy(&self) -> i16
        ensures { result ≡ self.now.vy }
    {
        self.vy
    }
}
