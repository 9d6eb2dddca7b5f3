//! The sizes of the numbers that fractions are made of, in bits.
ghost use Rattle.std.specs.Prelude.{◌≡◌, ◌*◌, ◌^◌, ◌<◌, ◌≤◌};

/// The greatest number of a word.
pub(crate) const WORD: u128 = 0xffff_ffff_ffff_ffff;

/// Parts of fractions are below this.
pub const LIMIT: u128 = 1 << 120;

/// How many bits the number has: the least number of bits that hold it.
pub(crate) fn bits(x: u128) -> u32
    ensures below { x < 2 ^ result }
    ensures reached { 0 < x → 2 ^ result ≤ 2 * x }
    ensures zero { x ≡ 0 → result ≡ 0 }
    ensures bound { result ≤ 128 }
{
    if x == 0 { 0 } else { x.ilog2() + 1 }
}
