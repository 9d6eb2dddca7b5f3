//! A fraction in one of two sizes, as a field.

ghost use Rattle.std.specs.Prelude.{◌≡◌, ◌≢◌, IsTrue, IsFalse, IfSome, refl};
ghost use Rattle.std.specs.Ordering.{as_partial_cmp};
ghost use Rattle.exact_field.specs.Field.{AnswersHeld};
ghost use Rattle.exact_field.specs.Order.{same_ℚ, cmp_ℚ};
ghost use Rattle.exact_field.specs.Rational.{zero_ℚ, ◌+ℚ◌, ◌*ℚ◌, ◌/ℚ◌};
ghost use Rattle.exact_field.proofs.Comparison.{cmp_ℚ-total, same_ℚ-equivalence, same_ℚ-partial_equivalence, cmp_ℚ-partial_order, same_ℚ-matches_cmp};
ghost use Rattle.frac128.specs.Held.{is_held, held_zero, held_one, held_neg, held_small};
ghost use Rattle.tier_frac.specs.Form.{number, IsSized};
ghost use Rattle.tier_frac.specs.Size.{is_small};

use crate::dot::dot;
use crate::exact::Exact;
use crate::words::Words;
use exact_field::{Field, Left, Op};
use frac128::Frac;
use std::cmp::Ordering;
use std::marker::Model;

/// The two sizes.
#[derive(Clone, Copy, Debug)]
enum Form {
    /// Both parts fit into an `i64`.
    Small(Words),
    /// One of them does not.
    Wide(Frac),
}

/// A number that `Frac` holds, in words where both parts fit into an `i64`. Equal numbers have one
/// representation. In contracts it is the rational number that it stands for.
#[derive(Clone, Copy, Debug)]
pub struct Tier {
    form: Form,
}

impl Model for Tier {
    ghost use Rattle.exact_field.specs.Rational.{ℚ, coded_ℚ};

    ghost Value = { ℚ };

    ghost coded = { coded_ℚ };

    ghost use Rattle.tier_frac.specs.Form.{number, IsSized, sized, sized_number};

    ghost view = { λ t. number t.form };

    ghost invariant = { λ t. IsSized t.form };

    ghost inverse = { λ q. record { form = sized q } };

    ghost inverse_ok = { λ t h i. record { form = sized_number t.form h i } };
}

impl Tier {
    /// A fraction, in the size that it has.
    pub fn from_frac(value: Frac) -> Tier
        ensures { result ≡ value }
    {
        match Exact::of_frac(value).words() {
            Some(words) => Tier::of_words(words),
            None => Tier::of_wide(value),
        }
    }

    /// The number as a fraction.
    pub fn frac(self) -> Frac
        ensures { result ≡ self }
    {
        match self.form() {
            Form::Small(words) => words.frac(),
            Form::Wide(frac) => frac,
        }
    }

    /// Whether the number is kept in words.
    pub fn is_small(self) -> bool
        ensures { result ≡ is_small self }
    {
        matches!(self.form, Form::Small(_))
    }

    /// The number in the size that it has.
    fn form(self) -> Form
        ensures value { number result ≡ self }
        ensures size { IsSized result }
    {
        self.form
    }

    fn of_words(words: Words) -> Tier
        requires { IsTrue (is_small words) }
        ensures { result ≡ words }
    {
        Tier {
            form: Form::Small(words),
        }
    }

    fn of_wide(frac: Frac) -> Tier
        requires { IsFalse (is_small frac) }
        ensures { result ≡ frac }
    {
        Tier {
            form: Form::Wide(frac),
        }
    }

    /// An exact value, where it is held.
    fn of_exact(exact: Exact) -> Option<Tier>
        ensures { AnswersHeld (λ q. q) is_held exact result }
    {
        match exact.words() {
            Some(words) => Some(Tier::of_words(words)),
            None => Some(Tier::of_wide(exact.frac()?)),
        }
    }

    /// The sum where it is held.
    fn plus(self, other: Tier) -> Option<Tier>
        ensures { AnswersHeld (λ q. q) is_held (self +ℚ other) result }
    {
        match take_words(self, other) {
            Some((left, right)) => Tier::of_exact(left.plus(right)),
            None => Some(Tier::from_frac(self.frac().plus(other.frac())?)),
        }
    }

    /// The product where it is held.
    fn times(self, other: Tier) -> Option<Tier>
        ensures { AnswersHeld (λ q. q) is_held (self *ℚ other) result }
    {
        match take_words(self, other) {
            Some((left, right)) => Tier::of_exact(left.times(right)),
            None => Some(Tier::from_frac(self.frac().times(other.frac())?)),
        }
    }

    /// The quotient where it is held.
    fn over(self, other: Tier) -> Option<Tier>
        requires { other ≢ zero_ℚ }
        ensures { AnswersHeld (λ q. q) is_held (self /ℚ other) result }
    {
        match take_words(self, other) {
            Some((left, right)) => Tier::of_exact(left.over(right)),
            None => Some(Tier::from_frac(self.frac().times(other.frac().reciprocal())?)),
        }
    }
}

/// Two numbers in words, where both are kept so.
fn take_words(left: Tier, right: Tier) -> Option<(Words, Words)>
    ensures { IfSome result (λ pair. (pair.0 ≡ left) × (pair.1 ≡ right)) }
{
    match left.form() {
        Form::Small(words) => match right.form() {
            Form::Small(others) => Some((words, others)),
            Form::Wide(_) => None,
        },
        Form::Wide(_) => None,
    }
}

impl PartialEq for Tier {
    ghost eq = { same_ℚ };

    ghost laws = { same_ℚ-partial_equivalence };

    fn eq(&self, other: &Tier) -> bool {
        match take_words(*self, *other) {
            Some((left, right)) => left.same(right),
            None => self.frac() == other.frac(),
        }
    }
}

impl Eq for Tier {
    ghost laws = { same_ℚ-equivalence };
}

impl PartialOrd for Tier {
    ghost partial_cmp = { as_partial_cmp cmp_ℚ };

    ghost laws = { cmp_ℚ-partial_order };

    fn partial_cmp(&self, other: &Tier) -> Option<Ordering> {
        Some(self.cmp(other))
    }
}

impl Ord for Tier {
    ghost cmp = { cmp_ℚ };

    ghost total = { cmp_ℚ-total };

    ghost matches_partial_cmp = { λ x y. refl };

    ghost matches_eq = { same_ℚ-matches_cmp };

    fn cmp(&self, other: &Tier) -> Ordering {
        match take_words(*self, *other) {
            Some((left, right)) => left.compare(right),
            None => self.frac().cmp(&other.frac()),
        }
    }
}

impl Field for Tier {
    ghost value = { λ q. q };

    ghost holds = { is_held };

    fn zero() -> Tier {
        Tier::of_words(Words::whole(0))
    }

    fn one() -> Tier {
        Tier::of_words(Words::whole(1))
    }

    fn whole(v: i64) -> Option<Tier> {
        Some(Tier::of_words(Words::whole(v)))
    }

    fn of(num: i128, den: i128) -> Option<Tier> {
        if den <= 0 {
            return None;
        }
        Tier::of_exact(Exact::reduce(num < 0, num.unsigned_abs(), den as u128))
    }

    fn num(self) -> i128 {
        match self.form() {
            Form::Small(words) => i128::from(words.num()),
            Form::Wide(frac) => frac.num(),
        }
    }

    fn den(self) -> i128 {
        match self.form() {
            Form::Small(words) => i128::from(words.den()),
            Form::Wide(frac) => frac.den(),
        }
    }

    fn neg(self) -> Tier {
        match self.form() {
            Form::Small(words) => match words.neg() {
                Some(negative) => Tier::of_words(negative),
                None => Tier::from_frac(words.frac().neg()),
            },
            Form::Wide(frac) => Tier::from_frac(frac.neg()),
        }
    }

    fn sign(self) -> i8 {
        match self.form() {
            Form::Small(words) => words.sign(),
            Form::Wide(frac) => frac.sign(),
        }
    }

    fn add(self, other: Tier) -> Result<Tier, Left<Tier>> {
        self.plus(other).ok_or(Left {
            op: Op::Add,
            a: self,
            b: other,
        })
    }

    fn sub(self, other: Tier) -> Result<Tier, Left<Tier>> {
        self.plus(other.neg()).ok_or(Left {
            op: Op::Sub,
            a: self,
            b: other,
        })
    }

    fn mul(self, other: Tier) -> Result<Tier, Left<Tier>> {
        self.times(other).ok_or(Left {
            op: Op::Mul,
            a: self,
            b: other,
        })
    }

    fn div(self, other: Tier) -> Result<Tier, Left<Tier>> {
        self.over(other).ok_or(Left {
            op: Op::Div,
            a: self,
            b: other,
        })
    }

    fn holds_small() -> bool {
        true
    }

    fn short_dot(row: &[Tier], vector: &[Tier]) -> Option<Tier> {
        dot(row, vector)
    }

    ghost holds_zero = { held_zero };

    ghost holds_one = { held_one };

    ghost holds_neg = { held_neg };

    ghost small = { held_small };

    ghost one_form = { λ x y e. e };

    ghost same = { λ x y. refl };

    ghost ordered = { λ x y. refl };
}
