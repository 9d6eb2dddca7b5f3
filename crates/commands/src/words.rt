//! Words of a line, a blank before each.
ghost use Rattle.std.specs.Prelude.{◌≡◌, ◌++◌, ◌∷◌, [], map, decimal, OnOk};
ghost use Rattle.std.specs.List.{flat_map};
ghost use Rattle.word_lines.specs.Printing.{spaced};

use sol_writer::put_natural;
use src_sink::{Bytes, NoMemory};

/// Appends a blank and a word.
pub(crate) fn put_word(word: &[u8], into: &mut Bytes) -> Result<(), NoMemory>
    ensures { OnOk result (into.new ≡ into.old ++ spaced (word.now ∷ [])) }
{
    into.push(b' ')?;
    into.append(word)?;
    Ok(())
}

/// Appends natural numbers.
fn put_counts(numbers: &[u64], into: &mut Bytes) -> Result<(), NoMemory>
    ensures { OnOk result
        (into.new ≡ into.old ++ flat_map (λ n. spaced (decimal n ∷ [])) numbers.now) }
{
    for number in numbers {
        put_natural(*number as usize, into)?;
    }
    Ok(())
}

/// Appends a name and natural numbers.
pub(crate) fn put_named(name: &[u8], numbers: &[u64], into: &mut Bytes) -> Result<(), NoMemory>
    ensures { OnOk result (into.new ≡ into.old ++ spaced (name.now ∷ map decimal numbers.now)) }
{
    put_word(name, into)?;
    put_counts(numbers, into)?;
    Ok(())
}
