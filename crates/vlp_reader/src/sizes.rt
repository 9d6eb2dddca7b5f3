//! The sizes of a problem.
ghost use Rattle.std.specs.Prelude.{◌≡◌, ◌+◌, ◌∷◌, Bool};
ghost use Rattle.vlp_reader.specs.Statements.{direction, cone_word, cone_sizes, sizes_of};
ghost use Rattle.vlp_reader.specs.Lines.{words_of};

use crate::fault::FileKind;
use crate::text::{natural, next_word};
use vlp_problem::Dir;

/// The sizes of a cone, and whether its vectors are those of the dual cone.
#[derive(Clone, Copy, Debug)]
pub struct ConeSizes {
    pub dual: bool,
    pub vectors: u32,
    pub entries: u32,
}

/// The sizes that the `p` line gives. The numbers of entries are those of the lines that give one.
#[derive(Clone, Copy, Debug)]
pub struct Sizes {
    pub dir: Dir,
    pub rows: u32,
    pub cols: u32,
    pub entries: u32,
    pub objs: u32,
    pub obj_entries: u32,
    pub cone: Option<ConeSizes>,
}

/// `min` or `max`.
fn read_direction(word: &[u8]) -> Option<Dir>
    ensures { result ≡ direction word.now }
{
    match word {
        b"min" => Some(Dir::Min),
        b"max" => Some(Dir::Max),
        _ => None,
    }
}

/// `cone` or `dualcone`: whether the vectors are those of the dual cone.
fn is_dual(word: &[u8]) -> Option<bool>
    ensures { result ≡ cone_word word.now }
{
    if word == b"cone".as_slice() {
        Some(false)
    } else if word == b"dualcone".as_slice() {
        Some(true)
    } else {
        None
    }
}

impl ConeSizes {
    /// No words, or CONE GENS GENNONZ.
    fn read(words: &[u8]) -> Option<Option<ConeSizes>>
        ensures { result ≡ cone_sizes (words_of words.now) }
    {
        let Some((kind, rest)) = next_word(words) else {
            return Some(None);
        };
        let (vectors, rest) = next_word(rest)?;
        let (entries, rest) = next_word(rest)?;
        if next_word(rest).is_some() {
            return None;
        }
        Some(Some(ConeSizes {
            dual: is_dual(kind)?,
            vectors: natural(vectors)?,
            entries: natural(entries)?,
        }))
    }
}

impl Sizes {
    ghost use Rattle.vlp_reader.specs.Grammar.{sizes_fault, cone_count};

    /// vlp DIR ROWS COLS NONZ OBJS OBJNONZ, and the words of a cone.
    pub(crate) fn read(words: &[u8]) -> Option<Sizes>
        ensures { result ≡ sizes_of (words_of words.now) }
    {
        let (vlp, rest) = next_word(words)?;
        let (dir, rest) = next_word(rest)?;
        let (rows, rest) = next_word(rest)?;
        let (cols, rest) = next_word(rest)?;
        let (entries, rest) = next_word(rest)?;
        let (objs, rest) = next_word(rest)?;
        let (obj_entries, rest) = next_word(rest)?;
        if vlp != b"vlp".as_slice() {
            return None;
        }
        Some(Sizes {
            dir: read_direction(dir)?,
            rows: natural(rows)?,
            cols: natural(cols)?,
            entries: natural(entries)?,
            objs: natural(objs)?,
            obj_entries: natural(obj_entries)?,
            cone: ConeSizes::read(rest)?,
        })
    }

    /// The number of the cone's vectors, and 0 without a cone.
    pub(crate) fn vectors(&self) -> u32
        ensures { result ≡ cone_count self.now.cone }
    {
        match self.cone {
            Some(cone) => cone.vectors,
            None => 0,
        }
    }

    /// The first test of the sizes that fails.
    pub(crate) fn fault(&self) -> Option<FileKind>
        ensures { result ≡ sizes_fault self.now }
    {
        let (some_vector, cone_entries) = match self.cone {
            Some(cone) => (0 < cone.vectors, cone.entries),
            None => (true, 0),
        };
        if self.cols == 0 || self.objs == 0 || !some_vector {
            return Some(FileKind::OutOfRange);
        }
        let entries = u64::from(self.entries)
            + u64::from(self.obj_entries)
            + u64::from(cone_entries);
        if self.rows > 1000
            || self.cols > 1000
            || self.objs > 20
            || self.vectors() > 64
            || entries > 100_000
        {
            return Some(FileKind::LimitPassed);
        }
        None
    }
}
