//! Weights as a word.
ghost use Rattle.std.specs.Prelude.{◌≡◌, IfOk, IsTrue, None};
ghost use Rattle.std.specs.Option.{is_none};
ghost use Rattle.frac128.specs.Held.{is_held};
ghost use Rattle.frac128.specs.Text.{frac_text};
ghost use Rattle.word_lines.specs.Numerals.{number_fault};
ghost use Rattle.commands.specs.Weights.{are_weights, AreWeightsOf};

use deriv_log::fraction;
use frac128::{Frac, Vector};
use src_sink::{NoMemory, first_piece};
use std::alloc::Global;

/// Whether a word is a fraction in its canonical form, and held.
fn is_fraction(word: &[u8]) -> bool
    ensures { result ≡ is_none (number_fault word.now) }
{
    fraction(word).is_ok()
}

/// Whether a word is from 1 to 20 fractions with a comma between one and the next.
pub(crate) fn are_weights(word: &str) -> bool
    ensures { result ≡ are_weights word.now }
{
    let mut rest = word.as_bytes();
    for _ in 0..20_u32 {
        let (piece, after) = first_piece(rest, b',');
        if !is_fraction(piece) {
            return false;
        }
        match after {
            Some(more) => rest = more,
            None => return true,
        }
    }
    false
}

/// The weight that a fraction's word writes.
fn weight_of(word: &[u8]) -> Frac
    requires { number_fault word.now ≡ None }
    ensures held { IsTrue (is_held result) }
    ensures text { frac_text result ≡ word.now }
{
    match fraction(word) {
        Ok(weight) => weight,
        Err(_) => unreachable!(),
    }
}

/// The weights that a word writes.
pub fn weights_of(alloc: Global, word: &str) -> Result<Vector, NoMemory>
    requires { IsTrue (are_weights word.now) }
    ensures { IfOk result (AreWeightsOf word.now) }
{
    let mut weights = Vector::new(alloc);
    let mut rest = word.as_bytes();
    loop {
        let (piece, after) = first_piece(rest, b',');
        weights.push(weight_of(piece))?;
        match after {
            Some(more) => rest = more,
            None => return Ok(weights),
        }
    }
}
