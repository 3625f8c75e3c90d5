// Byte parity: a check bit for each byte, nothing mended, one struck place found.
ghost use Rattle.std.specs.Prelude.{◌≡◌, refl};
ghost use Rattle.codes.specs.Parity.{byte_parity, odd_parity};
ghost use Rattle.codes.specs.ParityLaw.{parity_lawful};

use crate::bits::{join_bits, low_bits};
use crate::cells::{checks_of, data_of};
use crate::code::Code;
use crate::verdict::{Judgement, Verdict};

#[derive(Clone, Copy)]
pub struct ByteParity;

impl Code for ByteParity {
    const K: u32 = 2;

    ghost K = { byte_parity.width };

    const R: u32 = 0;

    ghost R = { byte_parity.mends };

    const S: u32 = 1;

    ghost S = { byte_parity.finds };

    ghost meaning = { byte_parity };

    ghost figures = { refl };

    ghost lawful = { parity_lawful };

    fn checks(word: u16) -> u8 {
        let word = u32::from(word);
        join_bits(parity_of(word >> 8), parity_of(low_bits(word, 8)), 1) as u8
    }

    fn judge(cell: u32) -> Judgement {
        let stored = data_of(cell);
        let syndrome = Self::checks(stored) ^ checks_of(cell, Self::K);
        let verdict = if syndrome == 0 {
            Verdict::Sound
        } else {
            Verdict::Bad
        };
        Judgement {
            verdict,
            word: stored,
            syndrome,
        }
    }
}

// The bit that makes the ones of the byte and itself odd.
fn parity_of(byte: u32) -> u32
    ensures { result ≡ odd_parity byte }
{
    (byte.count_ones() + 1) % 2
}
