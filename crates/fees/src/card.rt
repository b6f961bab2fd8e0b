// A fee card. No value of the type lies outside the limits.
ghost use Rattle.fees.specs.Limits.{Limits};

#[derive(Clone, Copy, PartialEq, Eq, Debug)]
pub struct FeeCard {
    pub(crate) opening: u32,
    pub(crate) rate: u32,
    pub(crate) cap: u64,
    ghost within: { Limits opening rate cap },
}
