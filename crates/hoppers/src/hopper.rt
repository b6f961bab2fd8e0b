// A hopper. No value of the type lies outside the limits.
ghost use Rattle.hoppers.specs.Limits.{Limits};

#[derive(Clone, Copy, PartialEq, Eq, Debug)]
pub struct Hopper {
    pub(crate) fill: u32,
    pub(crate) rate: i32,
    pub(crate) capacity: u32,
    ghost within: { Limits fill rate capacity },
}
