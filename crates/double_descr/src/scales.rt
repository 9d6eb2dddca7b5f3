//! What the meeting point of two vectors is calculated with over whole numbers.
ghost use Rattle.std.specs.Prelude.{◌≡◌, pos, ◌*ℤ◌, ◌<ℤ◌};
ghost use Rattle.exact_field.specs.Over.{IsBelowLimit};

/// The denominators of two vectors and of the values of a row there, and these values over them:
/// the first as it is, the second without its sign.
#[derive(Clone, Copy)]
pub struct Scales {
    pub den: i128,
    pub other_den: i128,
    pub above: i128,
    pub below: i128,
    /// The first denominator times the second value.
    pub scale: i128,
    ghost den_positive: { pos 0 <ℤ den },
    ghost other_positive: { pos 0 <ℤ other_den },
    ghost den_small: { IsBelowLimit den },
    ghost other_small: { IsBelowLimit other_den },
    ghost above_small: { IsBelowLimit above },
    ghost below_small: { IsBelowLimit below },
    ghost positive: { pos 0 <ℤ scale },
    ghost small: { IsBelowLimit scale },
    ghost scale_is: { scale ≡ den *ℤ below },
}
