// The split store: 16-bit data and 8-bit checks, of which the low 6 bits count, in two arrays lent by the caller.
ghost use Rattle.std.specs.Prelude.{◌≡◌};
ghost use Rattle.stores.specs.Layers.{split as split_meaning, split_count, split_content};
ghost use Rattle.stores.specs.Memory.{both, outside_cells, above, none};
ghost use Rattle.stores.specs.Proper.{split_proper};

use crate::bench::Bench;
use crate::bits::with_low_bits;
use crate::fault::Fault;
use crate::store::{Store, limited};

// Two arrays and not one of pairs, since that is the make: the chips of words, and those of checks.
#[derive(Drop)]
pub struct Split<'a, 'b> {
    words: &'a mut [u16],
    checks: &'b mut [u8],
}

impl<'a, 'b> Split<'a, 'b> {
    pub fn new(words: &'a mut [u16], checks: &'b mut [u8]) -> Split<'a, 'b>
        ensures words { result.words.now ≡ words.old }
        ensures checks { result.checks.now ≡ checks.old }
        ensures words_lent { result.words.ghost_name ≡ words.entry.ghost_name }
        ensures checks_lent { result.checks.ghost_name ≡ checks.entry.ghost_name }
    {
        Split { words, checks }
    }
}

impl Store for Split<'_, '_> {
    ghost meaning = { λ s. split_meaning s.words.now s.checks.now };

    ghost outside = { λ s. both (outside_cells none (split_count s.words.now s.checks.now) s.words.ghost_name s.words.now)
        (outside_cells (above 6) (split_count s.words.now s.checks.now) s.checks.ghost_name s.checks.now) };

    ghost proper = { λ s. split_proper s.words.now s.checks.now };

    fn layer(&self) -> u8 {
        1
    }

    fn count(&self) -> u32 {
        limited(self.words.len().min(self.checks.len()))
    }

    fn read(&self, cell: u32) -> Result<u32, Fault> {
        self.test_cell(cell)?;
        let at = cell as usize;
        Ok(content_of(self.words[at], self.checks[at]))
    }

    fn write(&mut self, cell: u32, content: u32) -> Result<(), Fault> {
        self.test_write(cell, content)?;
        let at = cell as usize;
        self.words[at] = (content & 0xffff) as u16;
        self.checks[at] = with_low_bits(u32::from(self.checks[at]), content >> 16, 6) as u8;
        Ok(())
    }
}

impl Bench for Split<'_, '_> {
    fn upset(&mut self, cell: u32, mask: u32) -> Result<(), Fault> {
        self.test_write(cell, mask)?;
        let at = cell as usize;
        self.words[at] ^= (mask & 0xffff) as u16;
        self.checks[at] ^= (mask >> 16) as u8;
        Ok(())
    }
}

// Six check bits above sixteen data bits.
fn content_of(word: u16, checks: u8) -> u32
    ensures { result ≡ split_content word checks }
{
    (u32::from(checks & 0x3f) << 16) | u32::from(word)
}
