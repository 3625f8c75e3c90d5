// What is wrong with a line, and how that is said.
ghost use Rattle.std.specs.Prelude.{◌≡◌, ◌<◌, IfOk, Some, string_bytes};
ghost use Rattle.std.specs.Char.{digit_char};
ghost use Rattle.std.specs.Fmt.{WritesOnOk};
ghost use Rattle.std.specs.List.{flat_map};
ghost use Rattle.language.specs.Texts.{expected_text, visible, escaped, mistake_text, wrong_text};

use crate::dialect::Dialect;
use std::alloc::{AllocError, Global};
use std::fmt;

#[derive(Clone, Copy, PartialEq, Eq, Debug)]
pub enum Expected {
    // An act of the dialect.
    Act(Dialect),
    CodeName,
    Make,
    Number { most: u32 },
    End,
    CodeFirst,
    StoreFirst,
    PlaceFirst,
    // The head of a job in the dialect.
    HeadOnce(Dialect),
}

// What was expected, and the word that was found, or none where the line ended.
#[derive(Clone, Copy, PartialEq, Eq, Debug)]
pub struct Wrong<'a> {
    pub expected: Expected,
    pub found: Option<&'a [u8]>,
}

// By hand, as every text of this repository that a contract promises: a derived text has none.
impl fmt::Display for Expected {
    ghost output = { λ e. Some (expected_text e) };

    fn fmt<W: fmt::Write>(&self, f: &mut fmt::Formatter<W>) -> fmt::Result {
        match *self {
            Expected::Act(Dialect::Stores) => {
                write!(f, "code, store, checks, judge, strike or cell")
            }
            Expected::Act(Dialect::Cards) => write!(
                f,
                "code, store, place, checks, judge, dati, datip, dato, datob, strike or cell"
            ),
            Expected::CodeName => write!(f, "am2960 or parity"),
            Expected::Make => write!(f, "flat, split, pair, map or banks"),
            Expected::Number { most } => write!(f, "a number at most {most}"),
            Expected::End => write!(f, "the end of the line"),
            Expected::CodeFirst => write!(f, "a code line first"),
            Expected::StoreFirst => write!(f, "a store line first"),
            Expected::PlaceFirst => write!(f, "a place line first"),
            Expected::HeadOnce(Dialect::Stores) => {
                write!(f, "code and store once each, in this order")
            }
            Expected::HeadOnce(Dialect::Cards) => write!(
                f,
                "code, store and place once each, in this order"
            ),
        }
    }
}

// What was expected and what was found; by hand, as above.
impl fmt::Display for Wrong<'_> {
    ghost output = { λ w. Some (mistake_text w) };

    fn fmt<W: fmt::Write>(&self, f: &mut fmt::Formatter<W>) -> fmt::Result {
        let expected = self.expected;
        match self.found {
            None => write!(f, "expected {expected}, found the end of the line"),
            Some(word) => {
                let word = Escaped { word };
                write!(f, "expected {expected}, found {word}")
            }
        }
    }
}

// One line of text, without its end: a function, since it asks for memory and promises the whole line.
pub fn wrong_text(heap: Global, line: u64, wrong: &Wrong) -> Result<String, AllocError>
    ensures { IfOk result (λ s. string_bytes s ≡ wrong_text line wrong.now) }
{
    let wrong = *wrong;
    format!(in heap; "line {line}: {wrong}")
}

// A word as it is shown.
#[derive(Clone, Copy)]
struct Escaped<'a> {
    word: &'a [u8],
}

impl fmt::Display for Escaped<'_> {
    ghost output = { λ e. Some (flat_map escaped e.word.now) };

    fn fmt<W: fmt::Write>(&self, f: &mut fmt::Formatter<W>) -> fmt::Result {
        for byte in self.word {
            write_escaped(f, *byte)?;
        }
        Ok(())
    }
}

fn write_escaped<W: fmt::Write>(f: &mut fmt::Formatter<W>, byte: u8) -> fmt::Result
    ensures { WritesOnOk W.write_str_gives f.old result (escaped byte) f.new }
{
    if is_visible(byte) {
        let shown = char::from(byte);
        write!(f, "{shown}")
    } else {
        let high = hex_digit(byte / 16);
        let low = hex_digit(byte % 16);
        write!(f, "\\x{high}{low}")
    }
}

fn is_visible(byte: u8) -> bool
    ensures { result ≡ visible byte }
{
    byte.is_ascii_graphic() && byte != b'\\'
}

fn hex_digit(digit: u8) -> char
    requires { digit < 16 }
    ensures value { result ≡ digit_char digit }
    ensures ascii { result < 128 }
{
    char::from_digit(u32::from(digit), 16).unwrap()
}
