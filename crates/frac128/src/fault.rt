//! Why a pair of whole numbers is no fraction here.

use thiserror::Error;

/// Why a fraction is not made.
#[derive(Clone, Copy, Debug, PartialEq, Eq, Error)]
pub enum FracFault {
    /// The denominator is 0.
    #[error("the denominator is 0")]
    ZeroDen,
    /// The denominator is not 0, and in lowest terms a part has 120 bits or more.
    #[error("a part of the fraction in lowest terms has more than 120 bits")]
    Wide,
}
