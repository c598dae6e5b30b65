/// The signs, `mod` and the functions, each at the place of its number.
pub const SPELLINGS: [&str; 57] = [
    "<->", "<=?", ">=?", "->", "/\\", "\\/", "<>", "<=", ">=", "=?", "<?", ">?", "&&", "||", "(",
    ")", ",", ":", ".", "=", "<", ">", "+", "-", "*", "/", "^", "~", "mod", "Z.succ", "Z.pred",
    "Z.opp", "Z.abs", "Z.sgn", "S", "Nat.pred", "N.succ", "N.pred", "Pos.succ", "Pos.pred",
    "Z.of_nat", "Z.of_N", "Z.pos", "Z.to_nat", "Z.to_N", "Z.min", "Z.max", "Nat.min", "Nat.max",
    "N.min", "N.max", "Pos.min", "Pos.max", "negb", "implb", "xorb", "Bool.eqb",
];

/// The spelling of a sign or function.
pub fn spelling(number: u8) -> &'static str {
    SPELLINGS.get(number as usize).copied().unwrap_or("?")
}
