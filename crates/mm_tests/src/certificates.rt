use cert_kit::{Cert, Close, Ends, Psatz, Step, depth};
use mm_poly::Poly;
use sqlite_items::{Boxed, Items};
use std::alloc::{AllocError, Global};
use std::test::Fail;

// Sums nested to this depth round a row.
fn nested(alloc: Global, depth: u32) -> Result<Psatz, AllocError> {
    let mut e = Psatz::Hyp(0);
    for _ in 0..depth {
        e = Psatz::Add(Boxed::new(alloc, e)?, Boxed::new(alloc, Psatz::Hyp(1))?);
    }
    Ok(e)
}

fn makes(alloc: Global, e: Psatz) -> Result<bool, AllocError> {
    let mut steps = Vec::new(alloc);
    steps.push(Step::Rat(e))?;
    Ok(Cert::make(steps, Close::Done).is_ok())
}

#[test]
fn certificates_are_at_most_4096_deep(rt: HostRuntime) -> Result<(), Fail> {
    let alloc = rt.alloc();
    for (deep, made) in [(0, true), (4096, true), (4097, false)] {
        assert_eq!(rt; makes(alloc, nested(alloc, deep)?)?, made, "{deep}");
    }
    let close = Close::Split(
        Poly::var(alloc, 0)?,
        Boxed::new(alloc, done(alloc, Psatz::Zero)?)?,
        Boxed::new(alloc, done(alloc, nested(alloc, 4095)?)?)?,
    );
    let cert = Cert {
        steps: Items::new(alloc),
        close,
    };
    assert_eq!(rt; depth(&cert), 4096);
    let members = Items::from_vec(vec![in alloc; cert]?);
    let ends = Boxed::new(
        alloc,
        Ends {
            lower: Psatz::Hyp(0),
            upper: Psatz::Hyp(1),
        },
    )?;
    let close = Close::Enum(ends, members);
    assert!(rt; Cert::make(Vec::new(alloc), close).is_err());
    Ok(())
}

fn done(alloc: Global, e: Psatz) -> Result<Cert, AllocError> {
    Ok(Cert {
        steps: Items::from_vec(vec![in alloc; Step::Cut(e)]?),
        close: Close::Done,
    })
}

#[test]
fn constants_are_at_least_1_and_small(rt: HostRuntime) -> Result<(), Fail> {
    let alloc = rt.alloc();
    for (constant, made) in [
        (1, true),
        (0, false),
        ((1 << 126) - 1, true),
        (1 << 126, false),
    ] {
        assert_eq!(rt; makes(alloc, Psatz::Const(constant))?, made, "{constant}");
    }
    Ok(())
}

#[test]
fn copies_are_as_deep(rt: HostRuntime) -> Result<(), Fail> {
    let alloc = rt.alloc();
    let copy = done(alloc, nested(alloc, 4096)?)?.copy(alloc)?;
    assert_eq!(rt; (depth(&copy), copy.steps.len()), (4096, 1));
    Ok(())
}
