ghost use Rattle.std.specs.Prelude.{◌≡◌, ◌↔◌, IsOk, IfOk, IfErr, IsTrue};
ghost use Rattle.cert_kit.specs.Depth.{MakesCert};

use crate::constants::{are_steps_in_range, is_close_in_range};
use crate::nesting::{depth_of_close, depth_of_steps};
use mm_poly::Poly;
use sqlite_items::{Boxed, Items};

/// An expression: a row made of the rows so far.
#[derive(Debug, Drop)]
pub enum Psatz {
    /// The row of this number, from 0.
    Hyp(u32),
    /// The square of a polynomial is at least 0.
    Square(Poly),
    /// A polynomial times an equality.
    MulPoly(Poly, Boxed<Psatz>),
    /// The product of two rows.
    Mul(Boxed<Psatz>, Boxed<Psatz>),
    /// The sum of two rows.
    Add(Boxed<Psatz>, Boxed<Psatz>),
    /// A constant of at least 1 is at least 0.
    Const(i128),
    /// 0 is 0.
    Zero,
}

/// A step appends a row.
#[derive(Debug, Drop)]
pub enum Step {
    /// The row that the expression means.
    Rat(Psatz),
    /// The cut of that row.
    Cut(Psatz),
}

/// The two expressions of an enumeration.
#[derive(Debug, Drop)]
pub struct Ends {
    /// It gives the least value.
    pub lower: Psatz,
    /// It gives the greatest value.
    pub upper: Psatz,
}

/// Steps over the rows so far, and how they end.
#[derive(Debug, Drop)]
#[cycle(cert)]
pub struct Cert {
    pub steps: Items<Step>,
    pub close: Close,
}

/// How a certificate ends.
#[derive(Debug, Drop)]
#[cycle(cert)]
pub enum Close {
    /// The last row is constant and false.
    Done,
    /// The polynomial is at least 0, or its negation less 1 is.
    Split(Poly, Boxed<Cert>, Boxed<Cert>),
    /// A polynomial lies between the bounds that two expressions give; a certificate for each value.
    Enum(Boxed<Ends>, Items<Cert>),
}

impl Cert {
    /// Whether these parts make a certificate: at most 4,096 deep, and each constant at least 1 and small.
    pub fn can_make(steps: &[Step], close: &Close) -> bool
        ensures { IsTrue result ↔ MakesCert steps.now close.now }
    {
        depth_of_steps(steps) <= DEEPEST
            && depth_of_close(close) <= DEEPEST
            && are_steps_in_range(steps)
            && is_close_in_range(close)
    }

    /// A certificate of these parts. They are handed back where the certificate would be more than 4,096 deep, or
    /// a constant is below 1 or not small.
    pub fn make(steps: Vec<Step>, close: Close) -> Result<Cert, (Vec<Step>, Close)>
        ensures made { IfOk result (λ c. c ≡ record { steps = steps.items; close = close }) }
        ensures makes { IsOk result ↔ MakesCert steps.items close }
        ensures parts { IfErr result (λ p. (p.0.items ≡ steps.items) × (p.1 ≡ close)) }
    {
        if Cert::can_make(&steps, &close) {
            Ok(Cert {
                steps: Items::from_vec(steps),
                close,
            })
        } else {
            Err((steps, close))
        }
    }
}

// A certificate is at most this deep.
const DEEPEST: u32 = 4096;
