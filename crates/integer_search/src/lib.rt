//! A search for a certificate that linear rows have no integer solution, or for a solution.
//!
//! Equalities come first: a change of unknowns, by whole numbers and back, solves each for one unknown (as for the Hermite
//! normal form; Schrijver 1986, section 4). The inequalities over the unknowns that are left go to branch and cut: a simplex,
//! which goes on where it was once a row is added, refutes them, or gives a point, at which a cut or a split is picked. What
//! the search finds is checked before it is handed out, so nothing has to be believed of it.
#![tactic(auto)]

mod back;
mod branching;
mod checked;
mod equalities;
mod expression;
mod searching;
mod stop;
mod system;
mod table;
mod tableau;

pub use searching::{Found, search};
