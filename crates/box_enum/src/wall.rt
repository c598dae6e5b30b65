ghost use Rattle.std.specs.Prelude.{◌≡◌, ℕ, ◌+◌, ◌≤◌, List, length, IfOk};
ghost use Rattle.std.specs.List.{AllByRecursion};
ghost use Rattle.mm_poly.specs.Poly.{variable_of};
ghost use Rattle.cert_kit.specs.declared.row.PRow.{PRow};
ghost use Rattle.cert_kit.specs.Acceptance.{IsGood};
ghost use Rattle.cert_kit.specs.Making.{ends, AreGood};
ghost use Rattle.box_enum.specs.machine.Places.{weakened, expression_of, wall_count, StandsWall, IsShallow};

use cert_kit::{Cert, Close, Ends, Psatz};
use mm_poly::Poly;
use sqlite_items::{Boxed, Items};
use std::alloc::{AllocError, Global};

/// How a bound follows from a row.
#[derive(Clone, Copy, Debug)]
pub enum Witness {
    /// The inequality of this number is the bound.
    Row(u32),
    /// The equality of this number is, as an inequality.
    Sum(u32),
    /// The opposite of the equality of this number is, as an inequality.
    Opposite(u32),
}

/// The least and the greatest value of a variable, and how they follow from rows.
#[derive(Clone, Copy, Debug)]
pub struct Wall {
    pub variable: u32,
    pub low: i128,
    pub high: i128,
    pub lower: Witness,
    pub upper: Witness,
}

/// The certificate of an enumeration of a wall's values, a member for each of them.
pub(crate) fn enumeration(
    alloc: Global,
    wall: &Wall,
    members: Vec<Cert>,
) -> Result<Cert, AllocError>
    requires counted { length members.items ≡ wall_count wall.now }
    ensures good { IfOk result (λ c. (rows : List PRow) → StandsWall rows wall.now → AreGood (variable_of wall.now.variable) wall.now.low members.items rows → IsGood rows c) }
    ensures shallow { IfOk result (λ c. (d : ℕ) → 2 ≤ d → AllByRecursion (IsShallow d) members.items → IsShallow (d + 1) c) }
{
    let ends = ends_of(alloc, wall)?;
    Ok(Cert {
        steps: Items::new(alloc),
        close: Close::Enum(Boxed::new(alloc, ends)?, Items::from_vec(members)),
    })
}

// The two expressions of the enumeration.
fn ends_of(alloc: Global, wall: &Wall) -> Result<Ends, AllocError>
    ensures { IfOk result (λ e. e ≡ ends (expression_of wall.now.lower) (expression_of wall.now.upper)) }
{
    Ok(Ends {
        lower: expression(alloc, wall.lower)?,
        upper: expression(alloc, wall.upper)?,
    })
}

fn expression(alloc: Global, witness: Witness) -> Result<Psatz, AllocError>
    ensures { IfOk result (λ e. e ≡ expression_of witness) }
{
    match witness {
        Witness::Row(number) => Ok(Psatz::Hyp(number)),
        Witness::Sum(number) => as_inequality(alloc, Psatz::Hyp(number)),
        Witness::Opposite(number) => {
            let row = Boxed::new(alloc, Psatz::Hyp(number))?;
            let opposite = Psatz::MulPoly(Poly::constant(alloc, -1)?, row);
            as_inequality(alloc, opposite)
        }
    }
}

// The sum with a square of 0.
fn as_inequality(alloc: Global, e: Psatz) -> Result<Psatz, AllocError>
    ensures { IfOk result (λ sum. sum ≡ weakened e) }
{
    let square = Psatz::Square(Poly::constant(alloc, 0)?);
    Ok(Psatz::Add(Boxed::new(alloc, e)?, Boxed::new(alloc, square)?))
}
