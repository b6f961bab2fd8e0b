// Times as the rules read them.
ghost use Rattle.std.specs.Prelude.{◌≡◌, ◌≤◌};
ghost use Rattle.family.specs.Order.{last_time, clamp};

// The last time.
pub const LAST_TIME: u32 = 1_000_000;

// A time from 0 to the last. A number that is later is read as the last.
#[derive(Clone, Copy, PartialEq, Eq, PartialOrd, Ord, Debug)]
pub struct Time {
    pub(crate) number: u32,
    ghost within: { number ≤ last_time },
}

impl From<u32> for Time {
    ghost from_gives = { λ t r. r.number ≡ clamp t };

    fn from(t: u32) -> Time {
        Time {
            number: t.min(LAST_TIME),
        }
    }
}

impl From<Time> for u32 {
    ghost from_gives = { λ t r. r ≡ t.number };

    fn from(t: Time) -> u32 {
        t.number
    }
}

// A time and an end, as a caller who asks for what comes next names them. Public functions take the two numbers
// themselves: a type that has room for fewer would ask more of their callers.
#[derive(Clone, Copy)]
pub struct Span {
    pub from: Time,
    pub end: Time,
}

impl Span {
    // Each number above the last time is read as the last.
    pub fn new(from: u32, end: u32) -> Span
        ensures from { result.from.number ≡ clamp from }
        ensures end { result.end.number ≡ clamp end }
    {
        Span {
            from: Time::from(from),
            end: Time::from(end),
        }
    }
}
