//! Certificates from multipliers of rows: by Farkas' lemma rows have no solution where multiples of them, those of
//! inequalities by numbers of at least 0, sum to a negative constant.
#![tactic(auto)]

mod balanced;
mod certificate;
mod law;
mod room;

pub use certificate::to_cert;
pub use law::farkas;
