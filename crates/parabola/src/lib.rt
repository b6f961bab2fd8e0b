// Parabolas: when a number that bends over time first changes its sign, and where it turns.
//
// The height at time t is start + 2 × tilt × t + bend × t². Half its slope is tilt + bend × t, a straight
// line, and bend × height is the square of that half slope less the discriminant tilt² − bend × start. So
// the sign of the height is told by whether the half slope lies in a band around 0, and it changes where
// a straight line enters or leaves that band: one integer root and one division, and no search.
//
// Example: start 50,000, tilt −30,000, bend 10,000 is 50,000 − 60,000 t + 10,000 t². Its discriminant is
// 400,000,000; it is below 0 where the half slope −30,000 + 10,000 t lies within ±19,999, which is from
// 2 to 4. At 1 and at 5 it is 0.
#![tactic(auto)]

mod curve;
mod line;
mod root;
mod sign;
mod turn;

pub use curve::Parabola;
