//! Small boxes, and counterexamples that a person would try first.
//!
//! A clause whose rows bound each variable from below and from above has finitely many points to try: `settle` answers with
//! the first one that solves it, or with a certificate that none does. `cube` tries the assignments of a goal of few variables with values
//! from -2 to 2.
#![tactic(auto)]

mod bounds;
mod branching;
mod cube_law;
mod cube_search;
mod edge;
mod end;
mod ground;
mod law;
mod modesty;
mod numbered;
mod putting;
mod reading;
mod refuting;
mod replacing;
mod searching;
mod settling;
mod standing;
mod trunk;
mod waiting;
mod wall;
mod walling;

pub use bounds::{Bounds, boxed};
pub use cube_law::cubes;
pub use cube_search::cube;
pub use end::BoxEnd;
pub use law::boxes;
pub use settling::settle;
