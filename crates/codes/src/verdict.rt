// What judging says of a cell.
ghost use Rattle.std.specs.Prelude.{◌≡◌, Some};
ghost use Rattle.codes.specs.Cells.{if_sound};
ghost use Rattle.codes.specs.Texts.{verdict_text};

use std::fmt;

// Sound: the cell's places are a word's encoding.
// Mended: they are not, and the code names the word that was stored.
// Bad: they are not, and the code cannot tell which word was stored.
#[derive(Clone, Copy, PartialEq, Eq, Debug)]
pub enum Verdict {
    Sound,
    Mended,
    Bad,
}

// What judging a cell answers. The word is the mended one where the verdict is mended, else the stored one.
#[derive(Clone, Copy, PartialEq, Eq, Debug)]
pub struct Judgement {
    pub verdict: Verdict,
    pub word: u16,
    pub syndrome: u8,
}

// By hand: a derived text has no contract.
impl fmt::Display for Verdict {
    ghost output = { λ v. Some (verdict_text v) };

    fn fmt<W: fmt::Write>(&self, f: &mut fmt::Formatter<W>) -> fmt::Result {
        match *self {
            Verdict::Sound => write!(f, "sound"),
            Verdict::Mended => write!(f, "mended"),
            Verdict::Bad => write!(f, "bad"),
        }
    }
}

impl Judgement {
    // The word, where the verdict is sound.
    pub(crate) fn sound(self) -> Option<u16>
        ensures { result ≡ if_sound self.verdict self.word }
    {
        (self.verdict == Verdict::Sound).then_some(self.word)
    }
}
