//! Single lines of the texts.
ghost use Rattle.std.specs.Prelude.{◌≡◌, ◌++◌, ◌∷◌, [], codes, OnOk};
ghost use Rattle.frac128.specs.Text.{frac_text};
ghost use Rattle.src_sink.specs.Texts.{line_text};
ghost use Rattle.weighing.specs.Text.{answer_line, numbers_line};

use frac128::Frac;
use sol_writer::{put_natural, put_naturals, put_number};
use src_sink::{Bytes, NoMemory};

/// Appends the line of facets by their numbers.
pub(crate) fn put_numbers(numbers: &[u32], into: &mut Bytes) -> Result<(), NoMemory>
    ensures { OnOk result (into.new ≡ into.old ++ line_text (numbers_line numbers.now)) }
{
    into.push(b'n')?;
    put_natural(numbers.len(), into)?;
    put_naturals(numbers, into)?;
    into.push(b'\n')?;
    Ok(())
}

/// Appends the line of a value.
pub(crate) fn put_value(value: Frac, into: &mut Bytes) -> Result<(), NoMemory>
    ensures { OnOk result
        (into.new ≡ into.old ++ line_text (codes "value" ∷ frac_text value ∷ [])) }
{
    into.append(b"value")?;
    put_number(value, into)?;
    into.push(b'\n')?;
    Ok(())
}

/// Appends the line of an answer's kind.
pub(crate) fn put_answer(name: &[u8], into: &mut Bytes) -> Result<(), NoMemory>
    ensures { OnOk result (into.new ≡ into.old ++ line_text (answer_line name.now)) }
{
    into.append(b"answer ")?;
    into.append(name)?;
    into.push(b'\n')?;
    Ok(())
}
