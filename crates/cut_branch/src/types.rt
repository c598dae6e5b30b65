use cert_kit::Psatz;
use mm_poly::Poly;

/// What comes next at a rational point of linear rows.
#[derive(Debug, Drop)]
pub enum Pick {
    /// The cut of this expression's row, which is false at the point.
    Cut(Psatz),
    /// Either this polynomial is at least 0, or its negation less 1 is; neither holds at the point.
    Split(Poly),
    /// Each value is whole.
    Integral,
}
