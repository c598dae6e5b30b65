ghost use Rattle.std.specs.Prelude.{◌≡◌, ◌≤◌, ◌+◌, ◌*◌, [], true, IfOk};
ghost use Rattle.goal_ast.specs.Sorted.{has_sort, literals_small, term_nodes, is_sorted, formula_literals_small, formula_nodes, IsWellFormed};
ghost use Rattle.goal_text.specs.GoalsRead.{AreGoalsOfFile};

use goal_ast::{Assignment, Bound, Cmp, Eval, Fn1, Formula, Goal, Mode, Name, Sort, Term, eval};
use goal_print::print_goal;
use goal_text::{RawSession, SortFail, TextFail, read_file, sorts};
use sqlite_items::Items;
use std::alloc::{AllocError, Global};
use std::marker::Send;
use std::test::Fail;
use std::thread::join;
use zify::{ZFail, ZGoal, back, zify};

// `Z.abs` of `Z.abs` of and so on, of 5.
fn nested_term(alloc: Global, depth: u32) -> Result<Term, AllocError>
    ensures sort { IfOk result (λ t. has_sort t [] Sort.Int ≡ true) }
    ensures small { IfOk result (λ t. literals_small t ≡ true) }
    ensures nodes { IfOk result (λ t. term_nodes t ≡ depth + 1) }
{
    let mut t = Term::Lit(5);
    for _ in 0..depth {
        t = Term::call1(alloc, Fn1::ZAbs, t)?;
    }
    Ok(t)
}

// `~` of `~` of and so on, of a comparison of two such terms.
fn nested_formula(alloc: Global, depth: u32) -> Result<Formula, AllocError>
    ensures sorted { IfOk result (λ f. is_sorted f [] ≡ true) }
    ensures small { IfOk result (λ f. formula_literals_small f ≡ true) }
    ensures nodes { IfOk result (λ f. formula_nodes f ≡ 3 * depth + 3) }
{
    let mut f = Formula::atom(
        alloc,
        Cmp::Eq,
        nested_term(alloc, depth)?,
        nested_term(alloc, depth)?,
    )?;
    for _ in 0..depth {
        f = Formula::negation(alloc, f)?;
    }
    Ok(f)
}

// A goal with no variables, nested this deep.
fn nested(alloc: Global, depth: u32) -> Result<Goal, AllocError>
    requires { depth ≤ 5000 }
    ensures well_formed { IfOk result IsWellFormed }
    ensures closed { IfOk result (λ g. g.vars ≡ []) }
{
    let body = nested_formula(alloc, depth)?;
    let vars = Items::new(alloc);
    Ok(Goal {
        mode: Mode::Lia,
        vars,
        body,
    })
}

// The truth of a copy of a goal 5,000 deep.
fn copied_and_evaluated(alloc: Global) -> Result<Eval, AllocError> {
    let goal = nested(alloc, 5000)?.copy(alloc)?;
    let values = Items::new(alloc);
    Ok(eval(&goal, &Assignment { values }))
}

#[test]
fn goals_5000_deep_in_a_thread(rt: HostRuntime) -> Result<(), Fail> {
    let alloc = rt.alloc();
    let (found, ()) = join(&rt, || copied_and_evaluated(alloc), || ());
    assert_eq!(rt; found?, Eval::True);
    Ok(())
}

// How many variables the translation of a goal 2,048 deep has.
fn variables(alloc: Global) -> Result<u32, ZFail> {
    Ok(zify(alloc, &nested(alloc, 2048)?)?.vars)
}

#[test]
fn translations_2048_deep_in_a_thread(rt: HostRuntime) -> Result<(), Fail> {
    let alloc = rt.alloc();
    let (found, ()) = join(&rt, || variables(alloc), || ());
    assert_eq!(rt; found?, 2048);
    Ok(())
}

#[test]
fn the_first_values_come_back(rt: HostRuntime) -> Result<(), Fail> {
    let alloc = rt.alloc();
    let mut vars = Items::new(alloc);
    vars.push(Bound {
        name: Name {
            bytes: Items::new(alloc),
        },
        sort: Sort::Int,
    })?;
    let goal = Goal {
        mode: Mode::Lia,
        vars,
        body: Formula::True,
    };
    let a = back(alloc, &goal, &[7, 8, 9])?;
    assert_eq!(rt; a.values.as_slice(), [7].as_slice());
    Ok(())
}

// What may go to another thread.
fn sent<T: Send>(value: T) -> T
    ensures { result ≡ value }
{
    value
}

#[test]
fn goals_and_translations_are_sent(rt: HostRuntime) -> Result<(), Fail> {
    let alloc = rt.alloc();
    let goal = Goal {
        mode: Mode::Nia,
        vars: Items::new(alloc),
        body: Formula::True,
    };
    let goal = sent(goal.copy(alloc)?);
    let a = sent(Assignment {
        values: Items::new(alloc),
    });
    assert_eq!(rt; eval(&goal, &a), Eval::True);
    let z: ZGoal = sent(zify(alloc, &goal)?);
    assert_eq!(rt; z.vars, 0);
    Ok(())
}

// The text of the one goal of a file, printed again.
fn printed(alloc: Global, sessions: &[RawSession]) -> Result<Option<Vec<u8>>, AllocError>
    requires { AreGoalsOfFile sessions.now }
{
    let [session] = sessions else {
        return Ok(None);
    };
    let [raw] = session.goals.as_slice() else {
        return Ok(None);
    };
    match sorts(alloc, raw) {
        Ok(goal) => Ok(Some(print_goal(alloc, &goal)?)),
        Err(SortFail::IllSorted { .. }) => Ok(None),
        Err(SortFail::NoMemory) => Err(AllocError),
    }
}

// A body of 2,047 negations is read, sorted and printed within the stack.
#[test]
fn a_goal_is_printed_as_deep_as_it_is_read(rt: HostRuntime) -> Result<(), Fail> {
    let alloc = rt.alloc();
    let mut body = String::new(alloc);
    for _ in 0..2047 {
        body.push_str("~ ")?;
    }
    body.push_str("True")?;
    let file = format!(in alloc; "Session a. Goal {body}. lia.")?;
    let again = match read_file(alloc, file.as_bytes()) {
        Ok(sessions) => printed(alloc, sessions.as_slice())?,
        Err(TextFail::NoMemory) => return Err(AllocError.into()),
        Err(_) => None,
    };
    let again = again.ok_or("a goal")?;
    assert!(rt; again.as_slice() == body.as_bytes());
    Ok(())
}
