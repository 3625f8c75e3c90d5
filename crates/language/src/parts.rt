// The parts of a line: keywords, numbers and its end.
ghost use Rattle.std.specs.Prelude.{◌≡◌, ◌≤◌, IfOk, option_map};
ghost use Rattle.std.specs.Str.{bytes_eq};
ghost use Rattle.lines.specs.Lines.{left};
ghost use Rattle.language.specs.Acts.{told, numbered, ended, one_number, two_numbers, three_numbers};

use crate::wrong::{Expected, Wrong};
use lines::{Words, number};

// The limit of a number that has no lower one.
pub(crate) const MOST_NUMBER: u32 = u32::MAX;

pub(crate) fn is(word: &[u8], text: &str) -> bool
    ensures { result ≡ bytes_eq word.now text.now }
{
    word == text.as_bytes()
}

// The limit stands in three contracts, since it is what lets a caller narrow the number.
// The number that a word writes, where there is one and it does not pass the limit.
pub(crate) fn bounded<'a>(word: Option<&'a [u8]>, most: u32) -> Result<u32, Wrong<'a>>
    ensures value { told result ≡ numbered most (option_map (λ w. w.now) word.entry) }
    ensures bound { IfOk result (λ n. n ≤ most) }
{
    word.and_then(|w| number(w, most)).ok_or(Wrong {
        expected: Expected::Number { most },
        found: word,
    })
}

// The end of the line.
pub(crate) fn end_of_line<'a>(mut words: Words<'a>) -> Result<(), Wrong<'a>>
    ensures { told result ≡ ended (left words.entry) }
{
    match words.next() {
        None => Ok(()),
        found => Err(Wrong {
            expected: Expected::End,
            found,
        }),
    }
}

// One number and the end of the line.
pub(crate) fn one_number<'a>(mut words: Words<'a>, most: u32) -> Result<u32, Wrong<'a>>
    ensures value { told result ≡ one_number most (left words.entry) }
    ensures bound { IfOk result (λ n. n ≤ most) }
{
    let n = bounded(words.next(), most)?;
    end_of_line(words)?;
    Ok(n)
}

// Two numbers, each with its limit, and the end of the line.
pub(crate) fn two_numbers<'a>(
    mut words: Words<'a>,
    most: u32,
    next: u32,
) -> Result<(u32, u32), Wrong<'a>>
    ensures value { told result ≡ two_numbers most next (left words.entry) }
    ensures bound { IfOk result (λ n. (n.0 ≤ most) × (n.1 ≤ next)) }
{
    let m = bounded(words.next(), most)?;
    let n = one_number(words, next)?;
    Ok((m, n))
}

// Three numbers and the end of the line.
pub(crate) fn three_numbers<'a>(
    mut words: Words<'a>,
    most: u32,
) -> Result<(u32, u32, u32), Wrong<'a>>
    ensures { told result ≡ three_numbers most (left words.entry) }
{
    let l = bounded(words.next(), most)?;
    let (m, n) = two_numbers(words, most, most)?;
    Ok((l, m, n))
}
