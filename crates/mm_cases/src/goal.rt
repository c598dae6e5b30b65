ghost use Rattle.std.specs.Prelude.{IfOk};
ghost use Rattle.std.specs.List.{AllByRecursion};
ghost use Rattle.goal_ast.specs.Range.{IsInRange};
ghost use Rattle.goal_ast.specs.Sorted.{IsWellFormed};
ghost use Rattle.goal_sort.specs.Sorting.{IsReadable};
ghost use Rattle.goal_text.specs.GoalsRead.{IsGoalOfFile, AreGoalsOfFile};

use goal_ast::{Assignment, Eval, Goal, eval, in_range};
use goal_print::{print_assignment, print_goal};
use goal_text::{RawGoal, RawSession, SortFail, TextFail, read_file, sorts};
use sqlite_items::Items;
use std::alloc::{AllocError, Global};

/// Why a text is no goal with sorts.
#[derive(Clone, Copy, Debug)]
pub enum NoGoal {
    /// It isn't read, or isn't one goal.
    Unread,
    /// The place in the file where it has no sort.
    IllSorted(u64),
    NoMemory,
}

impl From<AllocError> for NoGoal {
    fn from(_: AllocError) -> NoGoal {
        NoGoal::NoMemory
    }
}

fn sorted(alloc: Global, raw: &RawGoal) -> Result<Goal, NoGoal>
    requires { IsReadable raw.now }
    ensures { IfOk result IsWellFormed }
{
    match sorts(alloc, raw) {
        Ok(goal) => Ok(goal),
        Err(SortFail::IllSorted { at }) => Err(NoGoal::IllSorted(at)),
        Err(SortFail::NoMemory) => Err(NoGoal::NoMemory),
    }
}

// The one goal of a session.
fn goal_in(alloc: Global, goals: &[RawGoal]) -> Result<Goal, NoGoal>
    requires { AllByRecursion IsGoalOfFile goals.now }
    ensures { IfOk result IsWellFormed }
{
    match goals {
        [goal] => sorted(alloc, goal),
        _ => Err(NoGoal::Unread),
    }
}

// The one goal of a file.
fn goal_of_file(alloc: Global, sessions: &[RawSession]) -> Result<Goal, NoGoal>
    requires { AreGoalsOfFile sessions.now }
    ensures { IfOk result IsWellFormed }
{
    match sessions {
        [session] => goal_in(alloc, session.goals.as_slice()),
        _ => Err(NoGoal::Unread),
    }
}

/// The goal of a file `Session a. Goal TEXT. lia.`
pub fn goal_of(alloc: Global, text: &[u8]) -> Result<Goal, NoGoal>
    ensures { IfOk result IsWellFormed }
{
    let mut file = Vec::from_slice(alloc, b"Session a. Goal ")?;
    file.extend_from_slice(text)?;
    file.extend_from_slice(b". lia.")?;
    match read_file(alloc, &file) {
        Ok(sessions) => goal_of_file(alloc, sessions.as_slice()),
        Err(TextFail::NoMemory) => Err(NoGoal::NoMemory),
        Err(_) => Err(NoGoal::Unread),
    }
}

/// What is answered in place of a goal.
pub fn no_goal(alloc: Global, why: NoGoal) -> Result<Vec<u8>, AllocError> {
    match why {
        NoGoal::Unread => Vec::from_slice(alloc, b"not read as one goal"),
        NoGoal::IllSorted(at) => Ok(format!(in alloc; "ill-sorted {at}")?.into_bytes()),
        NoGoal::NoMemory => Err(AllocError),
    }
}

/// The text of the goal, or the place of the file `Session a. Goal TEXT. lia.` where it has no sort.
pub fn printed(alloc: Global, text: &[u8]) -> Result<Vec<u8>, AllocError> {
    match goal_of(alloc, text) {
        Ok(goal) => print_goal(alloc, &goal),
        Err(why) => no_goal(alloc, why),
    }
}

// The values, parted by blanks; a word that is no number is passed over.
fn values_of(alloc: Global, words: &str) -> Result<Assignment, AllocError> {
    let mut values = Items::new(alloc);
    for word in words.split_whitespace() {
        if let Ok(value) = word.parse::<i128>() {
            values.push(value)?;
        }
    }
    Ok(Assignment { values })
}

fn word_of(truth: Eval) -> &'static [u8] {
    match truth {
        Eval::True => b"true",
        Eval::False => b"false",
        Eval::Big => b"big",
    }
}

// The goal after `; `, and the values before it.
fn parts_of(alloc: Global, input: &str) -> Result<(Assignment, Goal), NoGoal>
    ensures { IfOk result (λ parts. IsWellFormed parts.1) }
{
    let Some((words, text)) = input.split_once("; ") else {
        return Err(NoGoal::Unread);
    };
    let values = values_of(alloc, words)?;
    let goal = goal_of(alloc, text.as_bytes())?;
    Ok((values, goal))
}

/// Whether the goal holds at the values.
pub fn truth(alloc: Global, input: &str) -> Result<Vec<u8>, AllocError> {
    match parts_of(alloc, input) {
        Ok((values, goal)) => {
            if in_range(&goal, &values) {
                Vec::from_slice(alloc, word_of(eval(&goal, &values)))
            } else {
                Vec::from_slice(alloc, b"out of range")
            }
        }
        Err(why) => no_goal(alloc, why),
    }
}

/// The lines of the assignment, without the last line feed, and parted by `, `.
pub fn shown(alloc: Global, input: &str) -> Result<Vec<u8>, AllocError> {
    let (values, goal) = match parts_of(alloc, input) {
        Ok(parts) => parts,
        Err(why) => return no_goal(alloc, why),
    };
    if in_range(&goal, &values) {
        assigned(alloc, &goal, &values)
    } else {
        Vec::from_slice(alloc, b"out of range")
    }
}

/// The lines of an assignment in range, so parted.
pub fn assigned(alloc: Global, goal: &Goal, a: &Assignment) -> Result<Vec<u8>, AllocError>
    requires { IsInRange goal.now a.now }
{
    let lines = print_assignment(alloc, goal, a)?;
    let mut answer = Vec::new(alloc);
    for line in lines.split(|b| *b == b'\n') {
        if !answer.is_empty() && !line.is_empty() {
            answer.extend_from_slice(b", ")?;
        }
        answer.extend_from_slice(line)?;
    }
    Ok(answer)
}
