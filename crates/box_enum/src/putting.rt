ghost use Rattle.std.specs.Prelude.{◌≡◌, ◌+◌, ◌^◌, ◌<◌, [], ◌∷◌, ◌++◌, length, true, IfOk, OnOk};
ghost use Rattle.std.specs.List.{AllByRecursion};
ghost use Rattle.cert_kit.specs.declared.cert.Psatz.TheVariants.{Hyp, MulPoly, Add};
ghost use Rattle.cert_kit.specs.declared.cert.Step.TheVariants.{Rat};
ghost use Rattle.box_enum.specs.machine.Putting.{IsTame, IsWithinReach, Puts, has_variable, put_step, row_left};

use crate::numbered::{Choice, Numbered};
use crate::replacing::{has_variable, replace};
use cert_kit::{PRow, Psatz, Step};
use mm_poly::Poly;
use sqlite_items::Boxed;
use std::alloc::{AllocError, Global};

/// Puts chosen values into a row: pushes a step for each choice whose variable occurs in what is left, where this many
/// rows stand before the first of them. What is left, with its number.
pub(crate) fn put_values(
    alloc: Global,
    steps: &mut Vec<Step>,
    count: u32,
    from: &Numbered,
    choices: &[Choice],
    reach: u128,
) -> Result<Numbered, AllocError>
    requires tame { IsTame reach from.now.row.poly }
    requires within { AllByRecursion (IsWithinReach reach) choices.now }
    requires room { count + length choices.now < 2 ^ 32 }
    ensures { IfOk result (Puts steps.old.items steps.new.items count from.now choices.now) }
{
    let mut left = copy(alloc, from)?;
    let mut next = count;
    for choice in choices {
        if !has_variable(&left.row.poly, choice.variable) {
            continue;
        }
        left = put_value(alloc, steps, &left, choice, next, reach)?;
        next += 1;
    }
    Ok(left)
}

fn copy(alloc: Global, from: &Numbered) -> Result<Numbered, AllocError>
    ensures { IfOk result (λ n. n ≡ from.now) }
{
    Ok(Numbered {
        row: PRow {
            poly: from.row.poly.copy(alloc)?,
            op: from.row.op,
        },
        number: from.number,
    })
}

// Pushes the step that puts a choice's value into a row. What is left, with the number that its row gets.
fn put_value(
    alloc: Global,
    steps: &mut Vec<Step>,
    from: &Numbered,
    choice: &Choice,
    number: u32,
    reach: u128,
) -> Result<Numbered, AllocError>
    requires tame { IsTame reach from.now.row.poly }
    requires within { IsWithinReach reach choice.now }
    requires occurs { has_variable choice.now.variable from.now.row.poly ≡ true }
    ensures pushed { OnOk result (steps.new.items ≡ steps.old.items ++ put_step from.now.number choice.now from.now.row.poly ∷ []) }
    ensures row { IfOk result (λ n. n.row ≡ row_left from.now.row choice.now) }
    ensures number { IfOk result (λ n. n.number ≡ number) }
{
    let replaced = replace(alloc, &from.row.poly, choice, reach)?;
    steps.push(sum_step(alloc, from.number, replaced.cofactor, choice.row)?)?;
    Ok(Numbered {
        row: PRow {
            poly: replaced.left,
            op: from.row.op,
        },
        number,
    })
}

// The sum of a row and of a multiple of another.
fn sum_step(alloc: Global, number: u32, cofactor: Poly, row: u32) -> Result<Step, AllocError>
    ensures { IfOk result (λ s. s ≡ Rat (Add (Hyp number) (MulPoly cofactor (Hyp row)))) }
{
    let multiple = Psatz::MulPoly(cofactor, Boxed::new(alloc, Psatz::Hyp(row))?);
    Ok(Step::Rat(Psatz::Add(
        Boxed::new(alloc, Psatz::Hyp(number))?,
        Boxed::new(alloc, multiple)?,
    )))
}
