//! Goals over the integers alone.
//!
//! A goal over several sorts becomes one over Z: each operation that isn't polynomial becomes a variable with a defining
//! condition among the hypotheses, and each bound variable has its sort's range there. The goal is valid exactly where,
//! at every integer point, the hypotheses imply the body.
#![tactic(auto)]

mod build;
mod condition;
mod convert;
mod fail;
mod form;
mod formulas;
mod goal;
mod law;
mod shape;
mod table;
mod term;
mod translate;
mod walk;

pub use convert::{back, zify};
pub use fail::ZFail;
pub use form::ZForm;
pub use goal::ZGoal;
pub use law::{points, translation};
pub use term::ZTerm;
