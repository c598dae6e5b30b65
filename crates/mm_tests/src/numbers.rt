use mm_num::{Frac, ceil_div, floor_div, gcd};
use std::test::Fail;

#[test]
fn quotients_round_down_and_up(rt: HostRuntime) {
    for (a, b, floor, ceiling) in [
        (7, 2, 3, 4),
        (-7, 2, -4, -3),
        (6, 3, 2, 2),
        (-6, 3, -2, -2),
        (0, 5, 0, 0),
        (1, 85070591730234615865843651857942052863, 0, 1),
        (
            -85070591730234615865843651857942052863,
            1,
            -85070591730234615865843651857942052863,
            -85070591730234615865843651857942052863,
        ),
        (-1, 85070591730234615865843651857942052863, -1, 0),
    ] {
        assert_eq!(rt; floor_div(a, b), floor, "{a} over {b}, down");
        assert_eq!(rt; ceil_div(a, b), ceiling, "{a} over {b}, up");
    }
}

#[test]
fn common_divisors(rt: HostRuntime) {
    for (a, b, divisor) in [
        (0, 0, 0),
        (0, -9, 9),
        (12, 0, 12),
        (12, 18, 6),
        (-12, 18, 6),
        (-35, -64, 1),
        (85070591730234615865843651857942052863, 3, 3),
    ] {
        assert_eq!(rt; gcd(a, b), divisor, "of {a} and {b}");
    }
}

#[test]
fn fractions(rt: HostRuntime) -> Result<(), Fail> {
    let half = Frac::make(-3, -6).ok_or("half")?;
    let third = Frac::make(2, 6).ok_or("third")?;
    for (found, num, den) in [
        (Some(half), 1, 2),
        (half.add(&third), 5, 6),
        (half.mul(&third), 1, 6),
        (half.div(&third), 3, 2),
    ] {
        let fraction = found.ok_or("a fraction")?;
        assert_eq!(rt; fraction.num(), num, "over {den}");
        assert_eq!(rt; fraction.den(), den, "under {num}");
    }
    assert!(rt; half.cmp(&third).ok_or("an order")?.is_gt());
    Ok(())
}
