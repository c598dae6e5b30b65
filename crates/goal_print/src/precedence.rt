//! The levels of the grammar. A lower level binds tighter.

/// Numbers, names, constants and what stands between parentheses.
pub(crate) const LEAF: u8 = 9;
/// A function with its arguments.
pub(crate) const CALL: u8 = 10;
/// `^`
pub(crate) const POWER: u8 = 30;
/// A minus before its operand.
pub(crate) const NEGATION: u8 = 35;
/// `*`, `/` and `&&`
pub(crate) const PRODUCT: u8 = 40;
/// `mod`, which is no left side of a product.
pub(crate) const REMAINDER: u8 = 41;
/// `+`, `-` and `||`
pub(crate) const SUM: u8 = 50;
/// Comparisons.
pub(crate) const COMPARISON: u8 = 70;
/// `~`
pub(crate) const NOT: u8 = 75;
/// `/\`
pub(crate) const AND: u8 = 80;
/// `\/`
pub(crate) const OR: u8 = 85;
/// `<->`
pub(crate) const IFF: u8 = 95;
/// `->`
pub(crate) const IMPLICATION: u8 = 99;
