// A parabola. No value of the type lies outside the limits.
ghost use Rattle.parabola.specs.Limits.{Limits};

#[derive(Clone, Copy)]
pub struct Parabola {
    // The height at time 0.
    pub start: i64,
    // Half the slope at time 0.
    pub tilt: i64,
    // By how much half the slope grows with each time.
    pub bend: i64,
    ghost within: { Limits start tilt bend },
}
