// A row of numbers as good as random, each from the one before, and small cards made of their bits.
use crate::tests::made::{Fee, Line, Path};

// The number after another.
pub fn next_random(seed: u64) -> u64 {
    seed.wrapping_mul(6_364_136_223_846_793_005)
        .wrapping_add(1_442_695_040_888_963_407)
}

// The numbers after this one.
#[derive(Drop)]
pub struct Random(pub u64);

impl Iterator for Random {
    type Item = u64;

    fn next(&mut self) -> Option<u64> {
        self.0 = next_random(self.0);
        Some(self.0)
    }
}

// A hopper of 14 random bits.
pub fn small_line(bits: u64) -> Line {
    Line((bits & 0xff) as u32, ((bits >> 10) & 0xf) as i32 - 8)
}

// A van of 26 random bits.
pub fn small_path(bits: u64) -> Path {
    Path(
        (bits & 0x1ff) as i32 - 256,
        ((bits >> 9) & 0x1ff) as i32 - 256,
        ((bits >> 18) & 0xf) as i16 - 8,
        ((bits >> 22) & 0xf) as i16 - 8,
    )
}

// A fee card of 17 random bits, which stands still from 255 coins on.
pub fn small_fee(bits: u64) -> Fee {
    Fee(
        (bits & 0x3f) as u32,
        ((bits >> 6) & 0x7) as u32,
        (bits >> 9) & 0xff,
    )
}
