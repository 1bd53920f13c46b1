//! Points, the cursor that turns them into differences, and their bounds.
#![tactic(auto)]

mod bounds;
mod cursor;
mod differences;
mod eight;
pub mod laws;
mod point;
mod steps;
mod tail;

pub use bounds::{Bounds, merged};
pub use cursor::Cursor;
pub use differences::{to_differences, to_points};
pub use eight::{
    APART, Eight, FAR_APART, NUMBERS_AT_ONCE, POINTS_AT_ONCE, eight_points, two_points,
};
pub use point::{COORDINATE_BOUND, Pt};
pub use steps::StepCode;
pub use tail::{PointList, PointTail};
