// Cells: data in bits 0 to 15, checks from bit 16 up; packed and unpacked, and encoded and decoded under any code.
ghost use Rattle.std.specs.Prelude.{◌≡◌, ℕ, ◌≤◌, MatchOption};
ghost use Rattle.codes.specs.Cells.{word_bits, cell_of, data_of, checks_of, encoding};
ghost use Rattle.codes.specs.Law.{Encodes, SoundIsEncoding, TellsCellsApart};

use crate::bits::{join_bits, low_bits};
use crate::code::Code;

pub fn pack(word: u16, checks: u8) -> u32
    ensures { result ≡ cell_of word_bits word checks }
{
    join_bits(u32::from(checks), u32::from(word), 16)
}

pub fn data_of(cell: u32) -> u16
    ensures { result ≡ data_of word_bits cell }
{
    low_bits(cell, 16) as u16
}

// The low `width` bits of the checks.
pub(crate) fn checks_of(cell: u32, width: u32) -> u8
    requires { width ≤ 8 }
    ensures { result ≡ checks_of word_bits width cell }
{
    low_bits(cell >> 16, width) as u8
}

pub fn encode<C: Code>(word: u16) -> u32
    ensures { result ≡ encoding word_bits C.Code.meaning word }
{
    pack(word, C::checks(word))
}

// The K stored checks of a cell under the code.
pub fn stored_checks<C: Code>(cell: u32) -> u8
    ensures { result ≡ checks_of word_bits C.Code.meaning.width cell }
{
    checks_of(cell, C::K)
}

// The word whose encoding the cell's places are, by the verdict; None where they are no word's encoding.
pub fn encoded_word<C: Code>(cell: u32) -> Option<u16>
    ensures exact { MatchOption result ((word : ℕ) → Encodes word_bits C.Code.meaning cell word → ⊥) (λ word. Encodes word_bits C.Code.meaning cell word) }
    ensures sound { SoundIsEncoding word_bits C.Code.meaning }
    ensures apart { TellsCellsApart C.Code.meaning }
{
    C::judge(cell).sound()
}
