//! The program `mm`: it reads goals from its input and writes a report of certificates and counterexamples, or rows and one
//! certificate, and writes what the rules say of them.
//!
//! `main` hands the real devices and the words of the command line to `mm_run::run`.
#![tactic(auto)]

mod stream;

ghost use Rattle.std.specs.Prelude.{◌≡◌, [], Ok, IfOk, IfErr, IsOkAnd};
ghost use Rattle.std.specs.IoError.{error_kind};

use mm_io::MemDisk;
use mm_run::{Caches, OUT_OF_MEMORY, OpenGate, run};
use std::alloc::Global;
use std::env;
use std::io::{self, ErrorKind};
use std::process::ExitCode;
use std::rt::Env;
use stream::{StdinSource, StdoutSink};

// The words after the program's name.
fn words_of(rt: &(impl Env + AllocGlobal)) -> io::Result<Vec<String>> {
    let mut words = Vec::new(rt.alloc());
    for word in env::args(rt)?.skip(1) {
        words.push(word)?;
    }
    Ok(words)
}

// Words that can be read; none where one isn't UTF-8, since no command has such a word.
fn readable(alloc: Global, words: io::Result<Vec<String>>) -> io::Result<Vec<String>>
    ensures read { IfOk words (λ found. result ≡ Ok found) }
    ensures faulty { IfErr words (λ e. error_kind e ≡ ErrorKind.InvalidData → IsOkAnd result (λ none. none.items ≡ [])) }
{
    match words {
        Err(error) if error.kind() == ErrorKind::InvalidData => Ok(Vec::new(alloc)),
        words => words,
    }
}

fn main(rt: HostRuntime) -> ExitCode {
    let alloc = rt.alloc();
    let Ok(words) = readable(alloc, words_of(&rt)) else {
        return ExitCode::from(OUT_OF_MEMORY);
    };
    let caches = Caches {
        lia: MemDisk::make(alloc, Vec::new(alloc), Vec::new(alloc), None),
        nia: MemDisk::make(alloc, Vec::new(alloc), Vec::new(alloc), None),
    };
    let mut goals = StdinSource::new(rt.stdin());
    let mut out = StdoutSink::new(rt.stdout());
    let ended = run(&rt, alloc, &words, &mut goals, &mut out, caches, &OpenGate);
    ExitCode::from(ended.status)
}

#[cfg(test)]
mod tests;
