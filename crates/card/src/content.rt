// What a module writes into a cell: a content that every store takes.
ghost use Rattle.std.specs.Prelude.{◌≡◌, ◌%◌, ◌^◌, ◌<◌};
ghost use Rattle.codes.specs.Cells.{word_bits, cell_of, encoding};
ghost use Rattle.stores.specs.Meaning.{content_limit};

use codes::{Code, encode, pack, stored_checks};

#[derive(Clone, Copy)]
pub(crate) struct Content {
    pub(crate) bits: u32,
    ghost narrow: { bits < content_limit },
}

impl Content {
    // The encoding of a word.
    pub(crate) fn encoding<C: Code>(word: u16) -> Content
        ensures { result.bits ≡ encoding word_bits C.Code.meaning word }
    {
        Content {
            bits: encode::<C>(word),
        }
    }

    // A word with the low K bits of the check latch as its checks.
    pub(crate) fn with_latch<C: Code>(word: u16, latch: u8) -> Content
        ensures { result.bits ≡ cell_of word_bits word (latch % 2 ^ C.Code.meaning.width) }
    {
        let checks = stored_checks::<C>(pack(0, latch));
        Content {
            bits: pack(word, checks),
        }
    }
}
