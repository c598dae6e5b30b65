/// A device didn't do what it was asked for. It counted a fault for it.
#[derive(Clone, Copy, Debug, PartialEq, Eq)]
pub struct Failed;
