// The Am2960's code: six check bits, one struck place mended, two found.
ghost use Rattle.std.specs.Prelude.{◌≡◌, refl};
ghost use Rattle.codes.specs.Columns.{am2960 as am2960_coding, column_code, named_bit, judged_by_columns, am2960_columns};
ghost use Rattle.codes.specs.ColumnLaw.{any_columns_lawful};
ghost use Rattle.codes.specs.Tables.{am2960_fits};

use crate::cells::{checks_of, data_of};
use crate::code::Code;
use crate::verdict::{Judgement, Verdict};

// The check bits that each data bit takes part in; check bits 0 to 5 are CX, C0, C1, C2, C4 and C8.
const COLUMNS: [u8; 16] = [
    14, 11, 19, 21, 22, 25, 26, 28, 35, 37, 38, 41, 42, 44, 49, 52,
];

// C1 and C2 are odd parities, the others even.
const CHECKS_OF_ZERO: u8 = 12;

#[derive(Clone, Copy)]
pub struct Am2960;

impl Code for Am2960 {
    const K: u32 = 6;

    ghost K = { am2960_coding.width };

    const R: u32 = 1;

    ghost R = { am2960_coding.mends };

    const S: u32 = 2;

    ghost S = { am2960_coding.finds };

    ghost meaning = { am2960_coding };

    ghost figures = { refl };

    ghost lawful = { any_columns_lawful am2960_columns am2960_fits };

    fn checks(word: u16) -> u8 {
        fold_columns(&COLUMNS, word)
    }

    fn judge(cell: u32) -> Judgement {
        judge_by(&COLUMNS, cell)
    }
}

// The column of each set bit of the word, joined by exclusive or with the checks of 0.
fn fold_columns(columns: &[u8; 16], word: u16) -> u8
    ensures { result ≡ (column_code columns.now).checks word }
{
    columns
        .iter()
        .enumerate()
        .fold(CHECKS_OF_ZERO, |checks, (place, column)| {
            if (word >> place) & 1 == 1 {
                checks ^ column
            } else {
                checks
            }
        })
}

// The data bit whose column the syndrome is, as a mask; 0 where it is none.
// A mask and no option: what follows inverts the bits that it names, and 0 names none.
fn bit_named_by(columns: &[u8; 16], syndrome: u8) -> u16
    ensures { result ≡ named_bit columns.now syndrome }
{
    columns
        .iter()
        .position(|column| *column == syndrome)
        .map_or(0, |place| 1 << place)
}

fn judge_by(columns: &[u8; 16], cell: u32) -> Judgement
    ensures { result ≡ (column_code columns.now).judged cell }
{
    let stored = data_of(cell);
    let syndrome = fold_columns(columns, stored) ^ checks_of(cell, Am2960::K);
    judge_syndrome(columns, stored, syndrome)
}

// No syndrome is sound; an even number of ones is bad, an odd one mended.
fn judge_syndrome(columns: &[u8; 16], stored: u16, syndrome: u8) -> Judgement
    ensures { result ≡ judged_by_columns columns.now stored syndrome }
{
    let (verdict, word) = if syndrome == 0 {
        (Verdict::Sound, stored)
    } else if syndrome.count_ones() % 2 == 0 {
        (Verdict::Bad, stored)
    } else {
        (Verdict::Mended, stored ^ bit_named_by(columns, syndrome))
    };
    Judgement {
        verdict,
        word,
        syndrome,
    }
}
