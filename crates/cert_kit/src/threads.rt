use crate::cert::Cert;
use crate::row::{Clause, PRow};
use std::marker::{Send, Sync};

/// Rows, clauses and certificates may go to another thread, and several threads may read one: this is asked of each of
/// them here.
pub fn may_cross_threads(row: &PRow, clause: &Clause, cert: &Cert) {
    asked(row);
    asked(clause);
    asked(cert);
}

fn asked<T: Send + Sync>(value: &T) {
    let _ = value;
}
