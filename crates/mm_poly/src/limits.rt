//! The limits of polynomials, each named once.

/// Norms, and the bounds on values, are below this one, 2^126.
pub const NORM_LIMIT: u128 = 1 << 126;

/// A polynomial has at most this many terms.
pub const SPREAD_LIMIT: u32 = 65_536;

/// The exponents of a term sum to at most this.
pub const DEGREE_LIMIT: u32 = 255;
