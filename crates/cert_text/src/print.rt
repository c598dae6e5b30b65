//! Rows and certificates printed.

mod certificate;
mod number;
mod polynomial;
mod row;

pub use certificate::{print_cert, push_cert_line};
pub use row::{print_row, push_row_line};
