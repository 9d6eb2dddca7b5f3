//! The canonical text of a number.
ghost use Rattle.std.specs.Prelude.{◌≡◌, ◌++◌, OnOk, OnErr};
ghost use Rattle.frac128.specs.Text.{frac_text};

use crate::frac::Frac;
use arrayvec::ArrayString;
use exact_field::Field;
use itoa::Buffer;
use src_sink::{Bytes, NoMemory};

/// Appends the canonical text: the numerator in decimal, and `/` and the denominator where that is
/// not 1.
pub fn put_frac(value: Frac, into: &mut Bytes) -> Result<(), NoMemory>
    ensures ok { OnOk result (into.new ≡ into.old ++ frac_text value) }
    ensures err { OnErr result (into.new ≡ into.old) }
{
    let mut text = ArrayString::<81>::new();
    text.push_str(Buffer::new().format(value.num()));
    if value.den() != 1 {
        text.push('/');
        text.push_str(Buffer::new().format(value.den()));
    }
    into.append(text.as_str().as_bytes())
}
