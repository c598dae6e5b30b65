use mm_poly::{Mono, Poly};
use std::test::Fail;

#[test]
fn monomials(rt: HostRuntime) -> Result<(), Fail> {
    let both = Mono::power(rt.alloc(), 3, 2)?.copy()?;
    assert_eq!(rt; both.without(3)?.len(), 0);
    assert_eq!(rt; both.without(0)?.exponent(3), 2);
    Ok(())
}

// 6*x0 - 9, halved and rounded down.
#[test]
fn combinations(rt: HostRuntime) -> Result<(), Fail> {
    let alloc = rt.alloc();
    let x = Poly::var(alloc, 0)?;
    let p = x.combination(alloc, 6, &Poly::constant(alloc, 9)?, -1)?;
    let half = p.floor_divided(alloc, 2)?;
    assert_eq!(rt; (half.content(), half.constant_term()), (3, -5));
    Ok(())
}

#[test]
fn joined_terms(rt: HostRuntime) -> Result<(), Fail> {
    let alloc = rt.alloc();
    let x = Poly::var(alloc, 7)?;
    let again = Poly::joined(alloc, x.copy(alloc)?.into_terms())?;
    assert!(rt; again.same(&x));
    assert!(rt; again.mul(alloc, &x)?.without_constant(alloc)?.norm() == 1);
    Ok(())
}
