//! The levels of the grammar, by its rules. Where one of them is asked for that is a rule of
//! expressions, a tree of a higher one of them may stand.

/// `expr`: a choice, or one that is higher.
pub(crate) const EXPRESSION: u8 = 0;
/// `or`: operands with `or` between them.
pub(crate) const OR: u8 = 1;
/// `and`: operands with `and` between them.
pub(crate) const AND: u8 = 2;
/// `not` before an operand.
pub(crate) const NOT: u8 = 3;
/// `cmp`: two operands that are compared.
pub(crate) const COMPARISON: u8 = 4;
/// `sum`: operands with `+` or `-` between them.
pub(crate) const SUM: u8 = 5;
/// `prod`: operands with `*` between them.
pub(crate) const PRODUCT: u8 = 6;
/// `unary`: `-` before an operand.
pub(crate) const UNARY: u8 = 7;
/// `atom`: what no operator divides.
pub(crate) const ATOM: u8 = 8;
/// `assign`: a people assignment.
pub(crate) const ASSIGNMENT: u8 = 9;
