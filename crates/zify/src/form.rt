use crate::term::ZTerm;
use goal_ast::Cmp;
use sqlite_items::Boxed;

/// A formula over the integers.
#[derive(Debug, Drop)]
pub enum ZForm {
    True,
    False,
    /// A comparison.
    Atom(Cmp, Boxed<ZTerm>, Boxed<ZTerm>),
    /// `~`
    Not(Boxed<ZForm>),
    /// `/\`
    And(Boxed<ZForm>, Boxed<ZForm>),
    /// `\/`
    Or(Boxed<ZForm>, Boxed<ZForm>),
    /// `->`
    Imp(Boxed<ZForm>, Boxed<ZForm>),
    /// `<->`
    Iff(Boxed<ZForm>, Boxed<ZForm>),
}
