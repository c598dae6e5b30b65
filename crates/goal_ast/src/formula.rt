use crate::term::Term;
use sqlite_items::Boxed;

/// A comparison of numbers in a formula.
#[derive(Clone, Copy, Debug, PartialEq, Eq)]
pub enum Cmp {
    /// `=`
    Eq,
    /// `<>`
    Ne,
    /// `<`
    Lt,
    /// `<=`
    Le,
    /// `>`
    Gt,
    /// `>=`
    Ge,
}

/// A comparison of numbers that is a bool.
#[derive(Clone, Copy, Debug, PartialEq, Eq)]
pub enum BCmp {
    /// `=?`
    Eq,
    /// `<?`
    Lt,
    /// `<=?`
    Le,
    /// `>?`
    Gt,
    /// `>=?`
    Ge,
}

/// A function of two bools.
#[derive(Clone, Copy, Debug, PartialEq, Eq)]
pub enum BFn {
    /// `implb`
    Imp,
    /// `xorb`
    Xor,
    /// `Bool.eqb`
    Eqb,
}

/// A term of sort bool.
#[derive(Debug, Drop)]
pub enum BTerm {
    True,
    False,
    /// The variable of this number.
    Var(u32),
    /// A comparison of numbers.
    Test(BCmp, Boxed<Term>, Boxed<Term>),
    /// `negb`
    Not(Boxed<BTerm>),
    /// `&&`
    And(Boxed<BTerm>, Boxed<BTerm>),
    /// `||`
    Or(Boxed<BTerm>, Boxed<BTerm>),
    /// A function of two arguments.
    Call(BFn, Boxed<BTerm>, Boxed<BTerm>),
}

/// A formula.
#[derive(Debug, Drop)]
pub enum Formula {
    True,
    False,
    /// A comparison of numbers.
    Atom(Cmp, Boxed<Term>, Boxed<Term>),
    /// Two comparisons that share their middle, as `a <= b < c`.
    Chain(Boxed<Term>, Cmp, Boxed<Term>, Cmp, Boxed<Term>),
    /// `=` of two bools.
    Same(Boxed<BTerm>, Boxed<BTerm>),
    /// `<>` of two bools.
    Differ(Boxed<BTerm>, Boxed<BTerm>),
    /// `~`
    Not(Boxed<Formula>),
    /// `/\`
    And(Boxed<Formula>, Boxed<Formula>),
    /// `\/`
    Or(Boxed<Formula>, Boxed<Formula>),
    /// `->`
    Imp(Boxed<Formula>, Boxed<Formula>),
    /// `<->`
    Iff(Boxed<Formula>, Boxed<Formula>),
}
