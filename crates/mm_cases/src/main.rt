//! The cases of `mm`: a table of questions with the answers that are due, asked through the public calls.
//!
//! Each line of the standard input is a case, `KIND INPUT => ANSWER`; empty lines and those that begin with `#` are
//! passed over. The program writes the first lines that are answered otherwise, and how many there are. The kinds are
//! those of `Kind`. In an input `<<N TEXT>>` stands for N times TEXT, and `%XX` for a byte. The answers that are due
//! were worked out by hand from the rules, never by the programs that are asked.
#![tactic(auto)]

mod algebra;
mod boxes;
mod case;
mod check;
mod clauses;
mod elimination;
mod goal;
mod parts;
mod program;
mod prove;
mod reading;
mod settled;
mod simplex;
mod spelling;
mod tokens;
mod translated;

use case::{Case, Kind, case_of, input_of};
use std::alloc::{AllocError, Global};
use std::io;
use std::thread::Threads;

/// How many lines that differ are written.
const SHOWN: u64 = 20;

// What the program answers to a case.
fn answer_to<R: Threads + Sync>(rt: &R, alloc: Global, case: &Case) -> Result<Vec<u8>, AllocError> {
    match case.kind {
        Kind::Verdict => check::verdict(rt, alloc, case.input),
        Kind::Check => check::line(rt, alloc, &input_of(alloc, case.input)?),
        Kind::Prove => prove::answers(rt, alloc, case.input),
        Kind::Within => prove::within(rt, alloc, case.input),
        Kind::Said => prove::said(rt, alloc, case.input),
        Kind::Report => prove::report(rt, alloc, case.input),
        Kind::Accepted => prove::accepted(rt, alloc, case.input),
        Kind::Words => prove::asked(rt, alloc, case.input),
        Kind::Again => algebra::again(alloc, &input_of(alloc, case.input)?),
        Kind::Sum => algebra::sum(alloc, case.input),
        Kind::Product => algebra::product(alloc, case.input),
        Kind::Multiple => algebra::multiple(alloc, case.input),
        Kind::Value => algebra::value(alloc, case.input),
        Kind::Content => algebra::content(alloc, case.input),
        Kind::Cut => algebra::cut(alloc, case.input),
        Kind::Order => parts::order(alloc, case.input),
        Kind::Measures => parts::measures(alloc, case.input),
        Kind::Coefficient => parts::coefficient(alloc, case.input),
        Kind::Combination => parts::combination(alloc, case.input),
        Kind::Renamed => parts::renamed(alloc, case.input),
        Kind::Simplex => simplex::answer(alloc, case.input),
        Kind::End => simplex::end(alloc, case.input),
        Kind::Tokens => tokens::answer(alloc, &input_of(alloc, case.input)?),
        Kind::Read => reading::answer(alloc, &input_of(alloc, case.input)?),
        Kind::Sort => goal::printed(alloc, &input_of(alloc, case.input)?),
        Kind::Truth => goal::truth(alloc, case.input),
        Kind::Show => goal::shown(alloc, case.input),
        Kind::Translate => translated::answer(alloc, &input_of(alloc, case.input)?),
        Kind::Clauses => clauses::answer(alloc, &input_of(alloc, case.input)?),
        Kind::Key => clauses::key_text(alloc, case.input),
        Kind::KeyName => clauses::name(alloc, case.input),
        Kind::Eliminate => elimination::end(alloc, case.input),
        Kind::Box => boxes::end(alloc, case.input),
        Kind::Cube => boxes::first(alloc, &input_of(alloc, case.input)?),
        Kind::RowOrder => clauses::row_order(alloc, case.input),
        Kind::Count => translated::count(alloc, &input_of(alloc, case.input)?),
    }
}

// What was answered where it isn't what is due; a line that is no case is never what is due.
fn difference<R: Threads + Sync>(
    rt: &R,
    alloc: Global,
    line: &str,
) -> Result<Option<Vec<u8>>, AllocError> {
    let Some(case) = case_of(line) else {
        return Ok(Some(Vec::from_slice(alloc, b"no case")?));
    };
    let answer = answer_to(rt, alloc, &case)?;
    Ok(if answer.as_slice() == case.due.as_bytes() {
        None
    } else {
        Some(answer)
    })
}

fn is_case(line: &str) -> bool {
    !line.is_empty() && !line.starts_with('#')
}

fn main(rt: HostRuntime) -> io::Result<()> {
    let alloc = rt.alloc();
    let text = io::read_to_string(alloc, rt.stdin())?;
    let mut cases = 0u64;
    let mut differ = 0u64;
    for line in text.lines() {
        if !is_case(line) {
            continue;
        }
        cases = cases.saturating_add(1);
        if let Some(answer) = difference(&rt, alloc, line)? {
            differ = differ.saturating_add(1);
            if differ <= SHOWN {
                let shown = String::from_utf8_lossy(alloc, answer.as_slice())?;
                println!(rt; "{line}\n  {shown}")?;
            }
        }
    }
    println!(rt; "{cases} cases, {differ} differ")
}
