//! Laws of the rational numbers. Each function does nothing when it runs: its contract is the law.

ghost use Rattle.exact_field.specs.Laws.{FieldLaws, FractionLaws, WholeLaws, OrderLaws, OneNormalFormOneValue, SumLaws, LeastLaws, Identities};
ghost use Rattle.exact_field.specs.Ring.{Ring};

/// The rational numbers are a field.
pub fn rationals_are_a_field()
    ensures { FieldLaws }
{}

/// A number has one form in lowest terms, by Gauss's lemma, and two fractions are one number
/// exactly where the cross products are equal.
pub fn lowest_terms_are_unique()
    ensures { FractionLaws }
{}

/// Sums, products and the order of whole numbers are those of the rational numbers that they are.
pub fn whole_numbers_are_rationals()
    ensures { WholeLaws }
{}

/// The order is total, and sums and products of nonnegative numbers respect it.
pub fn rationals_are_ordered()
    ensures { OrderLaws }
{}

/// In each commutative ring, polynomials with one normal form have one value.
pub fn one_normal_form_has_one_value<T>()
    ghost ring: { Ring T }
    ensures { OneNormalFormOneValue ring }
{}

/// Sums over lists of any items.
pub fn sums_over_lists<T, U>()
    ensures { SumLaws T U }
{}

/// Each list that is not empty has a least value, and nonnegative values allow a greatest step.
pub fn least_quotients<T>()
    ensures { LeastLaws T }
{}

/// Identities that the ring tool proves in one line each.
pub fn identities_by_normal_forms()
    ensures { Identities }
{}
