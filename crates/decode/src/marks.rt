// The decode table as the makers of the chip and of the memory print it, and what its marks mean.
ghost use Rattle.std.specs.Prelude.{◌≡◌, ◌+◌, ◌*◌, ◌/◌, ◌%◌};
ghost use Rattle.decode.specs.Marks.{meaning_of};

use codes::{Judgement, Verdict};

// What the table prints for a syndrome.
#[derive(Clone, Copy)]
pub enum Mark {
    // `*`: no errors.
    Clear,
    // `CX` to `C8`: one error, in a check bit.
    Check,
    // A number: one error, in that data bit, here as a mask.
    Data(u16),
    // `T`: two errors.
    Two,
    // `M`: more than two errors.
    More,
}

// Rows by SX, S0 and S1, of which S1 turns fastest; columns by S2, S4 and S8, of which S8 turns fastest.
// Both makers print these marks.
const TABLE: [&[u8; 24]; 8] = [
    b"*  C8 C4 T  C2 T  T  M  ",
    b"C1 T  T  15 T  13 7  T  ",
    b"C0 T  T  M  T  12 6  T  ",
    b"T  10 4  T  0  T  T  M  ",
    b"CX T  T  14 T  11 5  T  ",
    b"T  9  3  T  M  T  T  M  ",
    b"T  8  2  T  1  T  T  M  ",
    b"M  T  T  M  T  M  M  T  ",
];

// The mark at a syndrome, whose bits 0 to 5 are SX, S0, S1, S2, S4 and S8.
pub(crate) fn printed_at(syndrome: u8) -> Mark {
    let row = TABLE[reversed(syndrome) as usize];
    let at = 3 * reversed(syndrome / 8) as usize;
    mark_of(row[at], row[at + 1])
}

// The low three bits in the other order.
fn reversed(bits: u8) -> u8
    ensures { result ≡ bits % 2 * 4 + bits / 2 % 2 * 2 + bits / 4 % 2 }
{
    bits % 2 * 4 + bits / 2 % 2 * 2 + bits / 4 % 2
}

fn mark_of(first: u8, second: u8) -> Mark {
    match (first, second) {
        (b'*', _) => Mark::Clear,
        (b'C', _) => Mark::Check,
        (b'T', _) => Mark::Two,
        (b'1', b'0'..=b'5') => Mark::Data(1 << (10 + (second - b'0'))),
        (b'0'..=b'9', _) => Mark::Data(1 << (first - b'0')),
        _ => Mark::More,
    }
}

// What a mark says of judging a cell that holds the word and shows the syndrome; nothing of more than two errors.
pub(crate) fn meant_by(mark: Mark, word: u16, syndrome: u8) -> Option<Judgement>
    ensures { result ≡ meaning_of mark word syndrome }
{
    let (verdict, word) = match mark {
        Mark::Clear => (Verdict::Sound, word),
        Mark::Check => (Verdict::Mended, word),
        Mark::Data(bit) => (Verdict::Mended, word ^ bit),
        Mark::Two => (Verdict::Bad, word),
        Mark::More => return None,
    };
    Some(Judgement {
        verdict,
        word,
        syndrome,
    })
}
