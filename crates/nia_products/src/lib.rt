//! What products give: a clause with the rows which say that its square monomials, and the products of its first
//! inequalities, are at least 0, and an expression for each of these rows.
#![tactic(auto)]

mod enriched;
mod enriching;
mod law;
mod numbered;
mod products;
mod squares;

pub use enriched::Enriched;
pub use enriching::enrich;
pub use law::{certificates, solutions, square_monomials};
