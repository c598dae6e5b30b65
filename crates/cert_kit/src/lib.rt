//! Rows, clauses and certificates, and what they mean.
//!
//! A row says of an integer point that a polynomial is at least 0, or 0, there; a clause is solved where each of its
//! rows holds. The definitions of what an expression means over rows, of the first fault of a certificate, and of a
//! good certificate stand here once, with the law that no integer point solves a clause with a good certificate.
#![tactic(auto)]

mod bounds;
mod bytes;
mod cert;
mod constants;
mod copy;
mod cut;
mod key;
mod law;
mod maker;
mod nesting;
mod node;
mod occurring;
mod order;
mod parts;
mod row;
mod same;
mod sink;
mod threads;

pub use bounds::Bounds;
pub use bytes::{put_byte, put_integer, put_number, put_poly, put_rows};
pub use cert::{Cert, Close, Ends, Psatz, Step};
pub use cut::cut_row;
pub use key::{have_bounds, key_is, keys, one_key, rows_bytes};
pub use law::{faultless, solutions, soundness};
pub use maker::{
    closes_are_good, cuts_keep_solutions, cuts_of_cuts, meanings, measures, rows_may_be_renumbered,
    steps_make_rows,
};
pub use nesting::depth;
pub use node::{Fault, Node};
pub use occurring::{push_variables, variables};
pub use order::row_order;
pub use row::{Clause, Op, PRow, false_row};
pub use sink::ByteSink;
pub use threads::may_cross_threads;
