/// Why a run has no ending of its own.
#[derive(Clone, Copy, Debug, PartialEq, Eq)]
pub enum RunFail {
    /// A device failed.
    Device,
    /// Memory ran out.
    NoMemory,
}
