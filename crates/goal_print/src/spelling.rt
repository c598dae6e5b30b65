//! The texts of sorts and functions, and the signs of comparisons between their spaces.

ghost use Rattle.std.specs.Prelude.{◌≡◌};
ghost use Rattle.goal_token.specs.Spelling.{sort_text, one_text, two_text, bool_text, cmp_sign, test_sign};
ghost use Rattle.goal_print.specs.Parts.{between};

use goal_ast::{BCmp, BFn, Cmp, Fn1, Fn2, Sort};

pub(crate) fn sort_text(sort: Sort) -> &'static [u8]
    ensures { result.now ≡ sort_text sort }
{
    match sort {
        Sort::Int => b"Z",
        Sort::Bin => b"N",
        Sort::Nat => b"nat",
        Sort::Pos => b"positive",
        Sort::Bool => b"bool",
    }
}

pub(crate) fn one_text(f: Fn1) -> &'static [u8]
    ensures { result.now ≡ one_text f }
{
    match f {
        Fn1::ZSucc => b"Z.succ",
        Fn1::ZPred => b"Z.pred",
        Fn1::ZOpp => b"Z.opp",
        Fn1::ZAbs => b"Z.abs",
        Fn1::ZSgn => b"Z.sgn",
        Fn1::S => b"S",
        Fn1::NatPred => b"Nat.pred",
        Fn1::NSucc => b"N.succ",
        Fn1::NPred => b"N.pred",
        Fn1::PosSucc => b"Pos.succ",
        Fn1::PosPred => b"Pos.pred",
        Fn1::OfNat => b"Z.of_nat",
        Fn1::OfN => b"Z.of_N",
        Fn1::OfPos => b"Z.pos",
        Fn1::ToNat => b"Z.to_nat",
        Fn1::ToN => b"Z.to_N",
    }
}

pub(crate) fn two_text(f: Fn2) -> &'static [u8]
    ensures { result.now ≡ two_text f }
{
    match f {
        Fn2::ZMin => b"Z.min",
        Fn2::ZMax => b"Z.max",
        Fn2::NatMin => b"Nat.min",
        Fn2::NatMax => b"Nat.max",
        Fn2::NMin => b"N.min",
        Fn2::NMax => b"N.max",
        Fn2::PosMin => b"Pos.min",
        Fn2::PosMax => b"Pos.max",
    }
}

pub(crate) fn bool_text(f: BFn) -> &'static [u8]
    ensures { result.now ≡ bool_text f }
{
    match f {
        BFn::Imp => b"implb",
        BFn::Xor => b"xorb",
        BFn::Eqb => b"Bool.eqb",
    }
}

pub(crate) fn cmp_between(c: Cmp) -> &'static [u8]
    ensures { result.now ≡ between (cmp_sign c) }
{
    match c {
        Cmp::Eq => b" = ",
        Cmp::Ne => b" <> ",
        Cmp::Lt => b" < ",
        Cmp::Le => b" <= ",
        Cmp::Gt => b" > ",
        Cmp::Ge => b" >= ",
    }
}

pub(crate) fn test_between(c: BCmp) -> &'static [u8]
    ensures { result.now ≡ between (test_sign c) }
{
    match c {
        BCmp::Eq => b" =? ",
        BCmp::Lt => b" <? ",
        BCmp::Le => b" <=? ",
        BCmp::Gt => b" >? ",
        BCmp::Ge => b" >=? ",
    }
}
