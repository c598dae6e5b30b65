use sqlite_items::Boxed;

/// A polynomial over the integers, as it is written.
#[derive(Debug, Drop)]
pub enum ZTerm {
    /// A number of at least 0.
    Lit(i128),
    /// The variable of this number.
    Var(u32),
    /// `-a`
    Neg(Boxed<ZTerm>),
    /// `a + b`
    Add(Boxed<ZTerm>, Boxed<ZTerm>),
    /// `a - b`
    Sub(Boxed<ZTerm>, Boxed<ZTerm>),
    /// `a * b`
    Mul(Boxed<ZTerm>, Boxed<ZTerm>),
    /// `a ^ k`, for k from 0 on.
    Pow(Boxed<ZTerm>, i128),
}
