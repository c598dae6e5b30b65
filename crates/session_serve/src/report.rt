//! The report on all sessions.

ghost use Rattle.std.specs.Prelude.{◌≡◌, ◌++◌, IfOk, OnOk};
ghost use Rattle.std.specs.List.{AllByRecursion};
ghost use Rattle.goal_sort.specs.Sorting.{IsReadable};
ghost use Rattle.goal_text.specs.GoalsRead.{AreReadable};
ghost use Rattle.goal_serve.specs.Line.{lines_text};
ghost use Rattle.session_serve.specs.Pairing.{OneEach};
ghost use Rattle.session_serve.specs.Report.{IsReply, AreReplies, goal_lines, goals_lines, session_lines, sessions_lines, no_cache, report_text};
ghost use Rattle.session_serve.specs.Spelling.{AreSpelled};

use crate::served::Served;
use crate::spelling::all_spelled;
use goal_ast::Mode;
use goal_serve::{
    Answer, push_answer, push_asked, push_begin, push_cache, push_end, push_ill_sorted,
    push_session, push_unsorted,
};
use goal_text::{RawGoal, RawSession, SortFail, sorts};
use sqlite_items::Items;
use std::alloc::{AllocError, Global};

// A goal's own line, and what is said of it.
fn push_goal(
    alloc: Global,
    out: &mut Vec<u8>,
    number: u64,
    raw: &RawGoal,
    answer: &Answer,
) -> Result<(), AllocError>
    requires readable { IsReadable raw.now }
    requires reply { IsReply raw.now answer.now }
    ensures { OnOk result (out.new.items ≡ out.old.items ++ lines_text (goal_lines number raw.now answer.now)) }
{
    match sorts(alloc, raw) {
        Ok(goal) => {
            push_asked(out, number, &goal)?;
            push_answer(out, &goal, answer)
        }
        Err(SortFail::IllSorted { at }) => {
            push_unsorted(out, number, raw.mode)?;
            push_ill_sorted(out, at)
        }
        Err(SortFail::NoMemory) => Err(AllocError),
    }
}

fn push_goals(
    alloc: Global,
    out: &mut Vec<u8>,
    goals: &[RawGoal],
    answers: &[Answer],
) -> Result<(), AllocError>
    requires readable { AllByRecursion IsReadable goals.now }
    requires replies { OneEach IsReply goals.now answers.now }
    ensures { OnOk result (out.new.items ≡ out.old.items ++ lines_text (goals_lines 0 goals.now answers.now)) }
{
    for number in 0..goals.len() {
        push_goal(alloc, out, number as u64, &goals[number], &answers[number])?;
    }
    Ok(())
}

fn push_session_whole(
    alloc: Global,
    out: &mut Vec<u8>,
    number: u64,
    session: &RawSession,
    answers: &[Answer],
) -> Result<(), AllocError>
    requires readable { AllByRecursion IsReadable session.now.goals }
    requires replies { OneEach IsReply session.now.goals answers.now }
    ensures { OnOk result (out.new.items ≡ out.old.items ++ lines_text (session_lines number session.now answers.now)) }
{
    push_session(out, number, &session.name)?;
    push_goals(alloc, out, session.goals.as_slice(), answers)
}

fn push_sessions(
    alloc: Global,
    out: &mut Vec<u8>,
    sessions: &[RawSession],
    answers: &[Items<Answer>],
) -> Result<(), AllocError>
    requires readable { AreReadable sessions.now }
    requires replies { AreReplies sessions.now answers.now }
    ensures { OnOk result (out.new.items ≡ out.old.items ++ lines_text (sessions_lines 0 sessions.now answers.now)) }
{
    for number in 0..sessions.len() {
        push_session_whole(
            alloc,
            out,
            number as u64,
            &sessions[number],
            answers[number].as_slice(),
        )?;
    }
    Ok(())
}

/// The report on the sessions of a goal file and the answers to their goals. `Err` where there is no memory; that is
/// also the answer where an answer has no spelling that is read again: where a clause has 2^32 rows or more, or a
/// certificate is more than 4,096 deep or has 2^32 members or more in an enumeration.
pub fn print_report<D>(
    alloc: Global,
    sessions: &[RawSession],
    served: &Served<D>,
) -> Result<Vec<u8>, AllocError>
    requires readable { AreReadable sessions.now }
    requires replies { AreReplies sessions.now served.now.answers }
    ensures text { IfOk result (λ text. text.items ≡ report_text sessions.now served.now.answers no_cache no_cache) }
    ensures spelled { OnOk result (AreSpelled served.now.answers) }
{
    if !all_spelled(served.answers.as_slice()) {
        return Err(AllocError);
    }
    let mut out = Vec::new(alloc);
    push_begin(&mut out)?;
    push_sessions(alloc, &mut out, sessions, served.answers.as_slice())?;
    push_cache(&mut out, Mode::Lia, 0, 0, 0)?;
    push_cache(&mut out, Mode::Nia, 0, 0, 0)?;
    push_end(&mut out)?;
    Ok(out)
}
