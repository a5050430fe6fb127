//! Degrees to directions, in whole numbers.
//!
//! An angle is a whole number of femtodegrees, of which a degree has 10^15: a tenth of a nanometer on the earth. Sine
//! and cosine are sums of their series, so that each coordinate of a direction is at most 0.501 of a step of the grid
//! of 2^31 - 1 from what they say. No float is computed with: of a double its bits are read.
#![tactic(auto)]

mod angle;
mod bounds;
mod decimal;
mod direction;
mod double;
mod fault;
pub mod laws;
mod series;
mod signed;
mod tangent;

pub use bounds::{sine_at_least, sine_at_most};
pub use decimal::femtodegrees_of_text;
pub use direction::{direction_at, direction_of};
pub use double::femtodegrees_of;
pub use fault::{DegreesFault, NumberFault, TextFault};
pub use tangent::{angle_at_least, angle_at_most};
