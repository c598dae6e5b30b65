/// What a goal's body is at an assignment.
#[derive(Clone, Copy, Debug, PartialEq, Eq)]
pub enum Eval {
    /// It holds.
    True,
    /// It doesn't hold.
    False,
    /// The value of some subterm has a magnitude of 2^126 or more.
    Big,
}
