//! Exact elimination of unknowns from rows over the integers (Pugh 1991), with a certificate or a point.
#![tactic(auto)]

mod certificate;
mod choice;
mod eliminating;
mod ended;
mod ending;
mod exact;
mod giving;
mod group;
mod kept;
mod law;
mod live;
mod log;
mod logging;
mod marks;
mod pairs;
mod parallel;
mod point;
mod pruned;
mod pruning;
mod removal;
mod room;
mod rule;
mod run;
mod sides;
mod source;
mod standing;
mod state;
mod step;
mod stepped;
mod tidied;
mod tidying;
mod unknowns;
mod value;

pub use eliminating::{Elim, eliminate};
pub use law::{contradictions, enough, exact_shadow, numbering, points, steps, tidy};
pub use removal::Removal;
pub use rule::Rule;
