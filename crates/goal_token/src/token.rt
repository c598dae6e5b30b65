use goal_ast::{BFn, Fn1, Fn2, Name, Sort};

/// A word of the shape of a file of goals.
#[derive(Clone, Copy, Debug, PartialEq, Eq)]
pub enum Keyword {
    /// `Session`
    Session,
    /// `Goal`
    Goal,
    /// `Proof`
    Proof,
    /// `Qed`
    Qed,
    /// `lia`
    Lia,
    /// `nia`
    Nia,
    /// `forall`
    Forall,
}

/// A word for one proposition or one bool.
#[derive(Clone, Copy, Debug, PartialEq, Eq)]
pub enum Constant {
    /// `True`
    True,
    /// `False`
    False,
    /// `true`
    BoolTrue,
    /// `false`
    BoolFalse,
}

/// A function.
#[derive(Clone, Copy, Debug, PartialEq, Eq)]
pub enum Function {
    /// One of one number.
    One(Fn1),
    /// One of two numbers.
    Two(Fn2),
    /// `negb`
    Negb,
    /// One of two bools.
    Bool(BFn),
}

/// A sign, and the word `mod`.
#[derive(Clone, Copy, Debug, PartialEq, Eq)]
pub enum Sign {
    /// `<->`
    Iff,
    /// `<=?`
    LeTest,
    /// `>=?`
    GeTest,
    /// `->`
    Arrow,
    /// `/\`
    And,
    /// `\/`
    Or,
    /// `<>`
    Ne,
    /// `<=`
    Le,
    /// `>=`
    Ge,
    /// `=?`
    EqTest,
    /// `<?`
    LtTest,
    /// `>?`
    GtTest,
    /// `&&`
    BoolAnd,
    /// `||`
    BoolOr,
    /// `(`
    Open,
    /// `)`
    Close,
    /// `,`
    Comma,
    /// `:`
    Colon,
    /// `.`
    Dot,
    /// `=`
    Eq,
    /// `<`
    Lt,
    /// `>`
    Gt,
    /// `+`
    Plus,
    /// `-`
    Minus,
    /// `*`
    Times,
    /// `/`
    Divide,
    /// `^`
    Power,
    /// `~`
    Not,
    /// `mod`
    Mod,
}

/// A token of a file of goals.
#[derive(Debug, Drop)]
pub enum Token {
    /// A word of the shape of the file.
    Keyword(Keyword),
    /// A sort.
    Sort(Sort),
    /// `True`, `False`, `true` or `false`.
    Constant(Constant),
    /// A function.
    Function(Function),
    /// A sign, or `mod`.
    Sign(Sign),
    /// Any other name.
    Name(Name),
    /// A number, below 2^126.
    Literal(i128),
    /// What is no token: a byte that begins none, a number of 2^126 or more, the end of the input inside a comment.
    Wrong,
}

/// A token, and the offset of its first byte.
#[derive(Debug, Drop)]
pub struct Placed {
    pub token: Token,
    pub at: u64,
}
