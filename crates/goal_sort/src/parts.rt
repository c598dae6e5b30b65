//! Operands of the kind that a node wants.

ghost use Rattle.goal_sort.specs.SortGiving.{GivesPlaced};
ghost use Rattle.goal_sort.specs.SortedNumbers.{number_of, truth_of, statement_of, numbers_of};

use crate::fail::SortFail;
use crate::value::{Number, Sorted, Statement, Truth};

/// A number, or else a refusal.
pub fn number_of(at: u64, sorted: Sorted) -> Result<Number, SortFail>
    ensures { GivesPlaced result (number_of at sorted) }
{
    match sorted {
        Sorted::Number(number) => Ok(number),
        _ => Err(SortFail::IllSorted { at }),
    }
}

/// A bool, or else a refusal.
pub fn truth_of(at: u64, sorted: Sorted) -> Result<Truth, SortFail>
    ensures { GivesPlaced result (truth_of at sorted) }
{
    match sorted {
        Sorted::Truth(truth) => Ok(truth),
        _ => Err(SortFail::IllSorted { at }),
    }
}

/// A formula, or else a refusal.
pub fn statement_of(at: u64, sorted: Sorted) -> Result<Statement, SortFail>
    ensures { GivesPlaced result (statement_of at sorted) }
{
    match sorted {
        Sorted::Statement(statement) => Ok(statement),
        _ => Err(SortFail::IllSorted { at }),
    }
}

/// Two numbers, or else a refusal.
pub fn numbers_of(at: u64, a: Sorted, b: Sorted) -> Result<(Number, Number), SortFail>
    ensures { GivesPlaced result (numbers_of at a b) }
{
    let a = number_of(at, a)?;
    let b = number_of(at, b)?;
    Ok((a, b))
}
