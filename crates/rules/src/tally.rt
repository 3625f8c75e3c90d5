// Tallies of mended and bad treatments, one for each bank.
ghost use Rattle.std.specs.Prelude.{◌≡◌, ◌<◌};
ghost use Rattle.rules.specs.Tallies.{bank_of, tallied, no_tallies, tallied_at};

use crate::answer::Treatment;
use codes::Verdict;

// The words of a bank.
const BANK_WORDS: u32 = 65536;

const BANKS: usize = 8;

// How many treatments were mended and how many bad, each up to 65,535.
#[derive(Clone, Copy)]
pub(crate) struct Tally {
    mended: u16,
    bad: u16,
}

impl Tally {
    fn count(&mut self, treatment: Treatment)
        ensures { self.new ≡ tallied self.old treatment }
    {
        match treatment {
            Verdict::Sound => {}
            Verdict::Mended => self.mended = self.mended.saturating_add(1),
            Verdict::Bad => self.bad = self.bad.saturating_add(1),
        }
    }
}

#[derive(Clone, Copy)]
pub struct Tallies {
    banks: [Tally; BANKS],
}

impl Tallies {
    pub fn new() -> Tallies
        ensures { result ≡ no_tallies }
    {
        Tallies {
            banks: [Tally { mended: 0, bad: 0 }; BANKS],
        }
    }

    // Counts a treatment in the bank of its word.
    pub fn count(&mut self, word: u32, treatment: Treatment)
        ensures { self.new ≡ tallied_at self.old word treatment }
    {
        self.banks[bank_of(word)].count(treatment);
    }
}

// Bits 16 to 18 of the word's number.
fn bank_of(word: u32) -> usize
    ensures value { result ≡ bank_of word }
    ensures bound { result < 8 }
{
    (word / BANK_WORDS) as usize % BANKS
}
