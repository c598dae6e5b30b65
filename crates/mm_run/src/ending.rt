ghost use Rattle.std.specs.Prelude.{◌≡◌, ◌++◌, IfOk, OnOk, decimal};
ghost use Rattle.mm_run.specs.Ending.{text_of, status_of, placed, rejected};

use cert_check::Verdict;
use std::alloc::{AllocError, Global};

/// How a run ends, where neither memory nor a device fails it.
#[derive(Debug, Drop)]
pub enum Ending {
    /// The words ask for nothing that is there.
    Usage,
    /// There was more input than is read.
    TooLong,
    /// The input can't be read: the place where it fails.
    Bad(u64),
    /// A goal has too many tokens or variables: the place of the first one too many.
    Long(u64),
    /// There are too many sessions or goals: the place of the first one too many.
    Many(u64),
    /// The verdict on the certificate.
    Checked(Verdict),
    /// The report on the goals, and whether each of them is proved.
    Reported(Vec<u8>, bool),
    /// Each goal of the report that was read is good.
    AllGood,
    /// The first goal that isn't good of the report that was read: the number of its session, and its own there.
    NotGood { session: u64, goal: u64 },
}

/// The text that is written, each line with its line feed.
pub fn text(alloc: Global, ending: Ending) -> Result<Vec<u8>, AllocError>
    ensures { IfOk result (λ text. text.items ≡ text_of ending) }
{
    match ending {
        Ending::Usage => Vec::from_slice(alloc, b"usage: mm check | prove [--turns N] | recheck\n"),
        Ending::TooLong => Vec::from_slice(alloc, b"too long\n"),
        Ending::Bad(at) => placed(alloc, b"bad ", at),
        Ending::Long(at) => placed(alloc, b"long ", at),
        Ending::Many(at) => placed(alloc, b"many ", at),
        Ending::Checked(Verdict::Accepted) => Vec::from_slice(alloc, b"accepted\n"),
        Ending::Checked(Verdict::Rejected) => Vec::from_slice(alloc, b"rejected\n"),
        Ending::Checked(Verdict::Size) => Vec::from_slice(alloc, b"size\n"),
        Ending::Reported(report, _) => Ok(report),
        Ending::AllGood => Vec::from_slice(alloc, b"accepted\n"),
        Ending::NotGood { session, goal } => rejected(alloc, session, goal),
    }
}

// A word and a place, as a line.
fn placed(alloc: Global, word: &[u8], at: u64) -> Result<Vec<u8>, AllocError>
    ensures { IfOk result (λ line. line.items ≡ placed word.now at) }
{
    let mut line = Vec::from_slice(alloc, word)?;
    push_number(&mut line, at)?;
    line.push(b'\n')?;
    Ok(line)
}

// The goal that isn't good, as a line.
fn rejected(alloc: Global, session: u64, goal: u64) -> Result<Vec<u8>, AllocError>
    ensures { IfOk result (λ line. line.items ≡ rejected session goal) }
{
    let mut line = Vec::from_slice(alloc, b"rejected ")?;
    push_number(&mut line, session)?;
    line.push(b' ')?;
    push_number(&mut line, goal)?;
    line.push(b'\n')?;
    Ok(line)
}

// The number in decimal digits.
fn push_number(line: &mut Vec<u8>, number: u64) -> Result<(), AllocError>
    ensures { OnOk result (line.new.items ≡ line.old.items ++ decimal number) }
{
    let mut buffer = itoa::Buffer::new();
    line.extend_from_slice(buffer.format(number).as_bytes())
}

/// The status of the program.
pub fn status(ending: &Ending) -> u8
    ensures { result ≡ status_of ending.now }
{
    match ending {
        Ending::Usage | Ending::TooLong | Ending::Bad(_) | Ending::Long(_) | Ending::Many(_) => 2,
        Ending::Checked(Verdict::Accepted) | Ending::Reported(_, true) | Ending::AllGood => 0,
        Ending::Checked(Verdict::Rejected | Verdict::Size)
        | Ending::Reported(_, false)
        | Ending::NotGood { .. } => 1,
    }
}
