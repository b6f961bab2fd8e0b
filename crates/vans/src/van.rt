// A van. No value of the type lies outside the limits.
ghost use Rattle.vans.specs.Limits.{Limits};

#[derive(Clone, Copy, PartialEq, Eq, Debug)]
pub struct Van {
    pub(crate) px: i32,
    pub(crate) py: i32,
    pub(crate) vx: i16,
    pub(crate) vy: i16,
    ghost within: { Limits px py vx vy },
}
