//! Until when the rows are used that the steps of a certificate append.

ghost use Rattle.std.specs.Prelude.{◌≡◌, List, map, IfOk};
ghost use Rattle.cert_kit.specs.declared.cert.Step.{Step as AStep};
ghost use Rattle.cert_kit.specs.declared.cert.Close.{Close as AClose};
ghost use Rattle.cert_kit.specs.Making.{numbers_of};
ghost use Rattle.cert_check.specs.Uses.{step_numbers, steps_numbers, all_numbers, close_numbers, cert_numbers, noted_row, noted, steps_noted, is_idle, KnowsUses};

use cert_kit::{Cert, Close, Psatz, Step};
use std::alloc::{AllocError, Global};

/// When each row of the steps is used for the last time. They have the numbers from the first one on; a step uses rows
/// at the time of its place, and the close with all its members at the time that is the number of steps.
#[derive(Drop)]
pub struct LastUses {
    pub first: usize,
    pub times: Vec<usize>,
}

impl LastUses {
    /// Whether a row of a step before this time is used after it no more.
    pub fn is_idle(&self, time: usize, n: usize) -> bool
        ensures { result ≡ is_idle self.now.first self.now.times.items time n }
    {
        if n < self.first || n - self.first >= time {
            return false;
        }
        match self.times.get(n - self.first) {
            Some(last) => *last <= time,
            None => false,
        }
    }
}

/// The last uses of the rows that steps append, from this number on, if there are levels left. Each row number that
/// stands in the steps and the close is looked at once. Without times no row is let go.
pub fn last_uses(
    alloc: Global,
    first: usize,
    levels: u32,
    steps: &[Step],
    close: &Close,
) -> Result<LastUses, AllocError>
    ensures first { IfOk result (λ uses. uses.first ≡ first) }
    ensures known { IfOk result (λ uses. KnowsUses first uses.times.items steps.now close.now) }
{
    if levels == 0 || steps.len() < 2 {
        return Ok(no_uses(alloc, first));
    }
    let mut times = vec![in alloc; 0; steps.len()]?;
    note_in_order(&mut times, first, steps);
    note_close(&mut times, first, steps.len(), close);
    Ok(LastUses { first, times })
}

// No times.
fn no_uses(alloc: Global, first: usize) -> LastUses
    ensures first { result.first ≡ first }
    ensures known { (steps : List AStep) (close : AClose) → KnowsUses first result.times.items steps close }
{
    LastUses {
        first,
        times: Vec::new(alloc),
    }
}

// Each step at the time of its place.
fn note_in_order(times: &mut Vec<usize>, first: usize, steps: &[Step])
    ensures { times.new.items ≡ steps_noted first 0 steps.now times.old.items }
{
    for (time, step) in steps.iter().enumerate() {
        note_step(times, first, time, step);
    }
}

fn note_row(times: &mut Vec<usize>, first: usize, time: usize, n: usize)
    ensures { times.new.items ≡ noted_row first time n times.old.items }
{
    if n < first || n - first >= times.len() {
        return;
    }
    let place = n - first;
    times[place] = times[place].max(time);
}

fn note_expression(times: &mut Vec<usize>, first: usize, time: usize, e: &Psatz)
    ensures { times.new.items ≡ noted first time (numbers_of e.now) times.old.items }
{
    match e {
        Psatz::Hyp(n) => note_row(times, first, time, *n as usize),
        Psatz::Square(_) | Psatz::Const(_) | Psatz::Zero => {}
        Psatz::MulPoly(_, part) => note_expression(times, first, time, part.get()),
        Psatz::Mul(left, right) => {
            note_expression(times, first, time, left.get());
            note_expression(times, first, time, right.get());
        }
        Psatz::Add(left, right) => {
            note_expression(times, first, time, left.get());
            note_expression(times, first, time, right.get());
        }
    }
}

fn note_step(times: &mut Vec<usize>, first: usize, time: usize, step: &Step)
    ensures { times.new.items ≡ noted first time (step_numbers step.now) times.old.items }
{
    match step {
        Step::Rat(e) | Step::Cut(e) => note_expression(times, first, time, e),
    }
}

// All steps at one time.
fn note_steps(times: &mut Vec<usize>, first: usize, time: usize, steps: &[Step])
    ensures { times.new.items ≡ noted first time (steps_numbers steps.now) times.old.items }
{
    for step in steps {
        note_step(times, first, time, step);
    }
}

#[cycle(note)]
fn note_cert(times: &mut Vec<usize>, first: usize, time: usize, cert: &Cert)
    ensures { times.new.items ≡ noted first time (cert_numbers cert.now) times.old.items }
{
    note_steps(times, first, time, cert.steps.as_slice());
    note_close(times, first, time, &cert.close);
}

#[cycle(note)]
fn note_close(times: &mut Vec<usize>, first: usize, time: usize, close: &Close)
    ensures { times.new.items ≡ noted first time (close_numbers close.now) times.old.items }
{
    match close {
        Close::Done => {}
        Close::Split(_, left, right) => {
            note_cert(times, first, time, left.get());
            note_cert(times, first, time, right.get());
        }
        Close::Enum(ends, members) => {
            let ends = ends.get();
            note_expression(times, first, time, &ends.lower);
            note_expression(times, first, time, &ends.upper);
            note_certs(times, first, time, members.as_slice());
        }
    }
}

#[cycle(note)]
fn note_certs(times: &mut Vec<usize>, first: usize, time: usize, members: &[Cert])
    ensures { times.new.items ≡ noted first time (all_numbers (map cert_numbers members.now)) times.old.items }
{
    for member in members {
        note_cert(times, first, time, member);
    }
}
