//! The draws of the generator.
ghost use Rattle.std.specs.Prelude.{◌≡◌, ◌+◌, ◌*◌, ◌%◌, ◌^◌};
ghost use Rattle.exact_field.specs.Rational.{whole};
ghost use Rattle.replies.specs.Draws.{draw as draw_at};

use frac128::Frac;

/// The state after another.
pub(crate) fn next_state(state: u32) -> u32
    ensures { result ≡ (state * 1103515245 + 12345) % 2 ^ 31 }
{
    ((u64::from(state) * 1_103_515_245 + 12_345) % 2_147_483_648) as u32
}

/// What is drawn at a state.
pub(crate) fn draw(state: u32) -> Frac
    ensures { result ≡ whole (draw_at state) }
{
    Frac::from(i64::from(state / 65_536 % 19) - 9)
}
