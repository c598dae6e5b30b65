use mm_poly::Mono;

/// The first unknown of terms in monomial order, what is known of its coefficients, and the first later unknown that
/// can be eliminated exactly.
#[derive(Clone, Copy, Debug)]
pub struct Group<'a> {
    pub unknown: &'a Mono,
    /// Each coefficient is at most 1.
    pub lower_ones: bool,
    /// Each coefficient is at least -1.
    pub upper_ones: bool,
    pub later: Option<&'a Mono>,
}
