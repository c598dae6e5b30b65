use sqlite_items::Boxed;

/// The sort of a variable or a term.
#[derive(Clone, Copy, Debug, PartialEq, Eq, Hash)]
pub enum Sort {
    /// `Z`, the integers.
    Int,
    /// `N`, the natural numbers in binary.
    Bin,
    /// `nat`, the natural numbers.
    Nat,
    /// `positive`, the numbers from 1 on.
    Pos,
    /// `bool`.
    Bool,
}

/// A function of one argument.
#[derive(Clone, Copy, Debug, PartialEq, Eq, Hash)]
pub enum Fn1 {
    /// `Z.succ`
    ZSucc,
    /// `Z.pred`
    ZPred,
    /// `Z.opp`
    ZOpp,
    /// `Z.abs`
    ZAbs,
    /// `Z.sgn`
    ZSgn,
    /// `S`
    S,
    /// `Nat.pred`
    NatPred,
    /// `N.succ`
    NSucc,
    /// `N.pred`
    NPred,
    /// `Pos.succ`
    PosSucc,
    /// `Pos.pred`
    PosPred,
    /// `Z.of_nat`
    OfNat,
    /// `Z.of_N`
    OfN,
    /// `Z.pos`
    OfPos,
    /// `Z.to_nat`
    ToNat,
    /// `Z.to_N`
    ToN,
}

/// A function of two arguments.
#[derive(Clone, Copy, Debug, PartialEq, Eq, Hash)]
pub enum Fn2 {
    /// `Z.min`
    ZMin,
    /// `Z.max`
    ZMax,
    /// `Nat.min`
    NatMin,
    /// `Nat.max`
    NatMax,
    /// `N.min`
    NMin,
    /// `N.max`
    NMax,
    /// `Pos.min`
    PosMin,
    /// `Pos.max`
    PosMax,
}

/// A term over the integers and their kinds.
#[derive(Debug, Drop)]
pub enum Term {
    /// A number of at least 0.
    Lit(i128),
    /// The variable of this number.
    Var(u32),
    /// `-a`
    Neg(Boxed<Term>),
    /// `a + b`
    Add(Boxed<Term>, Boxed<Term>),
    /// `a - b`, on this sort.
    Sub(Sort, Boxed<Term>, Boxed<Term>),
    /// `a * b`
    Mul(Boxed<Term>, Boxed<Term>),
    /// `a ^ k`, for k from 0 on.
    Pow(Boxed<Term>, i128),
    /// `a / k`, for k other than 0.
    Div(Boxed<Term>, i128),
    /// `a mod k`, for k other than 0.
    Rem(Boxed<Term>, i128),
    /// A function of one argument.
    Call1(Fn1, Boxed<Term>),
    /// A function of two arguments.
    Call2(Fn2, Boxed<Term>, Boxed<Term>),
}

/// What stands at a node of a term beside its parts: the operator, with the number, sort or function that it has.
#[derive(Clone, Copy, Debug, PartialEq, Eq, Hash)]
pub enum Operator {
    Lit(i128),
    Var(u32),
    Neg,
    Add,
    Sub(Sort),
    Mul,
    Pow(i128),
    Div(i128),
    Rem(i128),
    Call1(Fn1),
    Call2(Fn2),
}
