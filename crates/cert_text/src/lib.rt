//! The text of rows and certificates: read with the place of the first line that doesn't fit, and printed.
//!
//! Each row and each certificate has one spelling. A check is rows, each on a line, and a certificate on the last line.
#![tactic(auto)]

mod certificate;
mod check;
mod expression;
mod fail;
mod grammar;
mod law;
mod monomial;
mod number;
mod polynomial;
mod print;
mod row;
mod term;
mod word;

pub use certificate::read_cert_line;
pub use check::{one_place, one_reading, read_check};
pub use fail::CheckText;
pub use grammar::{has_few_members, is_cert, row_fits};
pub use law::{each_is_a_line, spelled_is_read};
pub use print::{print_cert, print_row, push_cert_line, push_row_line};
pub use row::read_row_line;
