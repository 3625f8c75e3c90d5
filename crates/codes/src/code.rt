// The trait of check codes.
ghost use Rattle.std.specs.Prelude.{◌≡◌, ℕ};
ghost use Rattle.codes.specs.Cells.{Coding, figures as figures_of, word_bits, most_checks};
ghost use Rattle.codes.specs.Law.{Lawful};

use crate::verdict::Judgement;

// A code gives each word its check bits, and judges a cell by them. No method takes a `self`: the checks hang on the word
// alone, and the judgement on the cell alone.
pub trait Code {
    // How many check bits it has.
    const K: u32;

    ghost K: { ℕ };

    // How many struck places it mends.
    const R: u32;

    ghost R: { ℕ };

    // How many struck places it finds.
    const S: u32;

    ghost S: { ℕ };

    ghost meaning: { Coding };

    fn checks(word: u16) -> u8
        ensures { result ≡ meaning.checks word };

    fn judge(cell: u32) -> Judgement
        ensures { result ≡ meaning.judged cell };

    // The constants are the figures of the meaning.
    ghost figures: { figures_of meaning ≡ (K, R, S) };

    ghost lawful: { Lawful word_bits most_checks meaning };
}
