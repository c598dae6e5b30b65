//! The program `mm` over any source, sink, disks and gate.
//!
//! `run` takes the words of the command line and the input, and ends with a status. What it wrote is the whole text that
//! words and bytes call for, or a prefix of it where a device failed.
#![tactic(auto)]

mod called;
mod ending;
mod fail;
mod gate;
mod top;
mod words;

pub use gate::OpenGate;
pub use session_serve::Caches;
pub use top::{Ended, OUT_OF_MEMORY, run};
