use cert_kit::Cert;
use sqlite_items::Items;

/// What comes of a clause.
#[derive(Debug, Drop)]
pub enum Outcome {
    /// A good certificate: no integer point solves the clause.
    Cert(Cert),
    /// A point that solves the clause, one value for each variable, and why the goal is unsettled where the point
    /// doesn't witness that it is false.
    Point(Items<i128>, Why),
    /// Neither, and why.
    Unsettled(Why),
}

/// Why a clause has neither a certificate nor a point that witnesses.
#[derive(Clone, Copy, Debug, PartialEq, Eq)]
pub enum Why {
    /// The elimination ended with rows that may have solutions over the rationals alone.
    Grey,
    /// The elimination went past a limit, or the point that it gives is too large.
    Over,
}
