//! Laws of comparisons and of arithmetic.

ghost use Rattle.language_laws.specs.Comparisons.{ComparesByOrder, ComparesByBytes};
ghost use Rattle.language_laws.specs.Arithmetic.{ComputesExactly};

// rule: expression.less
/// Each comparison of numbers has its sentence: `=` holds of a number and itself alone, `<` of a number and one that
/// is greater by something, `<=` where `<` or `=` does, and `<>` where `=` doesn't.
pub fn numbers_are_compared_by_order()
    ensures { ComparesByOrder }
{}

// rule: expression.equal
/// Two texts are equal exactly where they have the same bytes in the same order, and unequal exactly where not.
pub fn texts_are_compared_byte_by_byte()
    ensures { ComparesByBytes }
{}

// rule: abort.range
/// Each arithmetic operation has its sentence: the exact result where it is in the signed 64-bit range, `Overflow`
/// where it isn't, and `DivisionByZero` exactly where a divisor is 0.
pub fn results_are_exact()
    ensures { ComputesExactly }
{}
