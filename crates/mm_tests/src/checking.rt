use cert_check::{Verdict, check};
use cert_kit::{Cert, Clause, Close, Ends, Op, PRow, Psatz, Step};
use mm_poly::Poly;
use sqlite_items::{Boxed, Items};
use std::alloc::{AllocError, Global};
use std::test::Fail;

/// The forms that nest, with the side that they nest on.
#[derive(Clone, Copy, Debug)]
enum Nesting {
    Multiple,
    FirstFactor,
    SecondFactor,
    FirstPart,
    SecondPart,
    UpperSide,
    LowerSide,
    Member,
}

const EXPRESSIONS: [Nesting; 5] = [
    Nesting::Multiple,
    Nesting::FirstFactor,
    Nesting::SecondFactor,
    Nesting::FirstPart,
    Nesting::SecondPart,
];

const CLOSES: [Nesting; 3] = [Nesting::UpperSide, Nesting::LowerSide, Nesting::Member];

// The row a*x0 + k.
fn line(alloc: Global, a: i8, k: i8, op: Op) -> Result<PRow, Fail> {
    let unknown = Poly::var(alloc, 0)?.scale(alloc, i128::from(a))?;
    let poly = unknown.add(alloc, &Poly::constant(alloc, i128::from(k))?)?;
    Ok(PRow { poly, op })
}

// The rows of these numbers.
fn clause_of(alloc: Global, lines: &[(i8, i8, Op)]) -> Result<Clause, Fail> {
    let mut rows = Vec::new(alloc);
    for (a, k, op) in lines {
        rows.push(line(alloc, *a, *k, *op)?)?;
    }
    Ok(Clause {
        rows: Items::from_vec(rows),
    })
}

// One step, and that the last row is false.
fn one_step(alloc: Global, step: Step) -> Result<Cert, AllocError> {
    let mut steps = Vec::new(alloc);
    steps.push(step)?;
    Ok(Cert {
        steps: Items::from_vec(steps),
        close: Close::Done,
    })
}

fn close_alone(alloc: Global, close: Close) -> Cert {
    Cert {
        steps: Items::new(alloc),
        close,
    }
}

fn boxed_one(alloc: Global) -> Result<Boxed<Psatz>, AllocError> {
    Boxed::new(alloc, Psatz::Const(1))
}

fn boxed_zero(alloc: Global) -> Result<Boxed<Psatz>, AllocError> {
    Boxed::new(alloc, Psatz::Zero)
}

// An expression with the meaning of the one in it.
fn around(alloc: Global, nesting: Nesting, e: Psatz) -> Result<Psatz, AllocError> {
    let inner = Boxed::new(alloc, e)?;
    Ok(match nesting {
        Nesting::Multiple => Psatz::MulPoly(Poly::constant(alloc, 1)?, inner),
        Nesting::FirstFactor => Psatz::Mul(inner, boxed_one(alloc)?),
        Nesting::SecondFactor => Psatz::Mul(boxed_one(alloc)?, inner),
        Nesting::FirstPart => Psatz::Add(inner, boxed_zero(alloc)?),
        _ => Psatz::Add(boxed_zero(alloc)?, inner),
    })
}

// A split where the other side has the row -1 >= 0.
fn split_around(alloc: Global, is_upper: bool, cert: Cert) -> Result<Close, AllocError> {
    let inner = Boxed::new(alloc, cert)?;
    let other = Boxed::new(alloc, close_alone(alloc, Close::Done))?;
    Ok(if is_upper {
        Close::Split(Poly::constant(alloc, 0)?, inner, other)
    } else {
        Close::Split(Poly::constant(alloc, -1)?, other, inner)
    })
}

// An enumeration of one value of 0.
fn enumeration_around(alloc: Global, cert: Cert) -> Result<Close, AllocError> {
    let mut members = Vec::new(alloc);
    members.push(cert)?;
    let members = Items::from_vec(members);
    let ends = Ends {
        lower: Psatz::Hyp(2),
        upper: Psatz::Hyp(2),
    };
    Ok(Close::Enum(Boxed::new(alloc, ends)?, members))
}

// A certificate that ends as the one in it does.
fn close_around(alloc: Global, nesting: Nesting, cert: Cert) -> Result<Cert, AllocError> {
    let close = match nesting {
        Nesting::UpperSide => split_around(alloc, true, cert)?,
        Nesting::LowerSide => split_around(alloc, false, cert)?,
        _ => enumeration_around(alloc, cert)?,
    };
    Ok(close_alone(alloc, close))
}

// A row, and this many expressions of the form round it.
fn nested(alloc: Global, nesting: Nesting, row: u32) -> Result<Cert, AllocError> {
    let mut e = Psatz::Hyp(row);
    for _ in 0..4096 {
        e = around(alloc, nesting, e)?;
    }
    one_step(alloc, Step::Rat(e))
}

fn nested_close(alloc: Global, nesting: Nesting, row: u32) -> Result<Cert, AllocError> {
    let mut cert = one_step(alloc, Step::Cut(Psatz::Hyp(row)))?;
    for _ in 0..4096 {
        cert = close_around(alloc, nesting, cert)?;
    }
    Ok(cert)
}

const CONSTANTS: [(i8, i8, Op); 3] = [(0, -1, Op::Eq), (0, -1, Op::Ge), (0, 0, Op::Ge)];

// A row of a false constant, and one of a true constant.
const ENDS: [(u32, Verdict); 2] = [(0, Verdict::Accepted), (2, Verdict::Rejected)];

#[test]
fn expressions_4096_deep_are_checked(rt: HostRuntime) -> Result<(), Fail> {
    let alloc = rt.alloc();
    let clause = clause_of(alloc, &CONSTANTS)?;
    for nesting in EXPRESSIONS {
        let cert = nested(alloc, nesting, 0)?;
        assert_eq!(rt;
            check(alloc, &clause, &cert)?,
            Verdict::Accepted,
            "{nesting:?}"
        );
    }
    Ok(())
}

#[test]
fn closes_4096_deep_are_checked(rt: HostRuntime) -> Result<(), Fail> {
    let alloc = rt.alloc();
    let clause = clause_of(alloc, &CONSTANTS)?;
    for (row, verdict) in ENDS {
        for nesting in CLOSES {
            let cert = nested_close(alloc, nesting, row)?;
            assert_eq!(rt;
                check(alloc, &clause, &cert)?,
                verdict,
                "{nesting:?} of {row}"
            );
        }
    }
    Ok(())
}
