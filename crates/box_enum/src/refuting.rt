ghost use Rattle.std.specs.Prelude.{◌≡◌, ℕ, ℤ, ◌+◌, ◌^◌, ◌<◌, List, [], map, length, IfOk, IfSome, IsNone, OnOk};
ghost use Rattle.std.specs.List.{AllByRecursion};
ghost use Rattle.cert_kit.specs.declared.row.PRow.{PRow as Row};
ghost use Rattle.cert_kit.specs.Row.{Holds};
ghost use Rattle.cert_kit.specs.Acceptance.{IsGood};
ghost use Rattle.box_enum.specs.machine.Putting.{IsTame, IsWithinReach, StandsChosen, StandsNumbered};
ghost use Rattle.box_enum.specs.machine.Places.{Agrees, AreNamed, ending_with, IsGoodAt, IsOpen, IsShallow, names_of};

use crate::numbered::{Choice, Numbered};
use crate::putting::put_values;
use crate::standing::Ground;
use cert_kit::{Cert, Close, Op, PRow, Psatz, Step, false_row};
use mm_poly::Term;
use sqlite_items::Items;
use std::alloc::{AllocError, Global};

/// A certificate from a row that is due and false at the chosen values, where there is one. Which rows are tried says
/// only how early a branch ends.
pub(crate) fn refuted_early(
    alloc: Global,
    ground: &Ground,
    count: u32,
    choices: &[Choice],
) -> Result<Option<Cert>, AllocError>
    requires tame { AllByRecursion (λ s. IsTame ground.now.reach s.numbered.row.poly) ground.now.standing }
    requires within { AllByRecursion (IsWithinReach ground.now.reach) choices.now }
    requires room { count + length choices.now < 2 ^ 32 }
    ensures good { IfOk result (λ found. IfSome found (IsGoodAt count ground.now.standing choices.now [])) }
    ensures shallow { IfOk result (λ found. IfSome found (IsShallow 2)) }
{
    for standing in ground.standing.as_slice() {
        if standing.due == choices.len() && is_false_at(&standing.numbered.row, choices) {
            let found = refuted(alloc, &standing.numbered, count, choices, ground.reach)?;
            if found.is_some() {
                return Ok(found);
            }
        }
    }
    Ok(None)
}

/// A certificate where each variable has a value and some row is false.
pub(crate) fn refuted_at_last(
    alloc: Global,
    ground: &Ground,
    count: u32,
    choices: &[Choice],
) -> Result<Cert, AllocError>
    requires { IsOpen ground.now count choices.now [] }
    ensures good { IfOk result (IsGoodAt count ground.now.standing choices.now []) }
    ensures shallow { IfOk result (IsShallow 2) }
{
    for standing in ground.standing.as_slice() {
        if let Some(cert) = refuted(alloc, &standing.numbered, count, choices, ground.reach)? {
            return Ok(cert);
        }
    }
    unreachable!()
}

// The certificate that puts the chosen values into a row, where what is left is false. Where each of the row's
// variables has a value and there is none, the row holds.
fn refuted(
    alloc: Global,
    row: &Numbered,
    count: u32,
    choices: &[Choice],
    reach: u128,
) -> Result<Option<Cert>, AllocError>
    requires tame { IsTame reach row.now.row.poly }
    requires within { AllByRecursion (IsWithinReach reach) choices.now }
    requires room { count + length choices.now < 2 ^ 32 }
    ensures good { IfOk result (λ found. IfSome found (λ c. (rows : List Row) → length rows ≡ count → StandsNumbered rows row.now → AllByRecursion (StandsChosen rows) choices.now → IsGood rows c)) }
    ensures shallow { IfOk result (λ found. IfSome found (IsShallow 2)) }
    ensures none { IfOk result (λ found. IsNone found → AreNamed (names_of choices.now []) row.now.row.poly → (x : ℕ → ℤ) → AllByRecursion (Agrees x) choices.now → Holds x row.now.row) }
{
    let mut steps = Vec::new(alloc);
    let left = put_values(alloc, &mut steps, count, row, choices, reach)?;
    if !false_row(&left.row) {
        return Ok(None);
    }
    let after = count as usize + steps.len();
    end_with(&mut steps, left.number, after)?;
    Ok(Some(Cert {
        steps: Items::from_vec(steps),
        close: Close::Done,
    }))
}

// Makes the row of a number the last one, where this many rows stand.
fn end_with(steps: &mut Vec<Step>, number: u32, count: usize) -> Result<(), AllocError>
    ensures { OnOk result (steps.new.items ≡ ending_with number count steps.old.items) }
{
    if number as usize + 1 != count {
        steps.push(Step::Rat(Psatz::Hyp(number)))?;
    }
    Ok(())
}

// Whether each variable of a row has a value and the row is false there, as far as numbers of 128 bits tell.
fn is_false_at(row: &PRow, choices: &[Choice]) -> bool {
    match value_at(row.poly.terms(), choices) {
        None => false,
        Some(value) => match row.op {
            Op::Ge => value < 0,
            Op::Eq => value != 0,
        },
    }
}

fn value_at(terms: &[Term], choices: &[Choice]) -> Option<i128> {
    let mut total: i128 = 0;
    for term in terms {
        total = total.checked_add(term_at(term, choices)?)?;
    }
    Some(total)
}

fn term_at(term: &Term, choices: &[Choice]) -> Option<i128> {
    let mut product = term.coeff;
    for factor in term.mono.factors() {
        let value = chosen(factor.0, choices)?;
        for _ in 0..factor.1 {
            product = product.checked_mul(value)?;
        }
    }
    Some(product)
}

// The value that was chosen for a variable.
fn chosen(variable: u32, choices: &[Choice]) -> Option<i128> {
    for choice in choices {
        if choice.variable == variable {
            return Some(choice.value);
        }
    }
    None
}
