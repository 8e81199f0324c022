//! The picture of a printed journal, as an SVG text.
//!
//! A lane is a job, and a bar in it a transaction: it spans from the length that the journal had when it began to the number of its
//! entry. `specs/Scenes` says what is shown of the lines, `specs/Drawn` and `specs/Arrows` where, and `specs/Elements` by which text.
#![tactic(auto)]

mod drawing;
mod elements;
mod escapes;
mod labels;
pub mod law;
mod naming;
mod reading;
mod scene;
mod shapes;
mod whole;

pub use reading::scene_of;
pub use scene::{Bar, LaneName, Scene, Spot};
pub use shapes::{Area, Point, ShapeStyle};
pub use whole::{Unpictured, picture, picture_of};
