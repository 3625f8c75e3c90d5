// The flat store: one array of 32-bit numbers, lent by the caller, with the content in the low 22 bits.
ghost use Rattle.std.specs.Prelude.{◌≡◌};
ghost use Rattle.stores.specs.Layers.{flat as flat_meaning, flat_count};
ghost use Rattle.stores.specs.Meaning.{content_bits};
ghost use Rattle.stores.specs.Memory.{outside_cells, above};
ghost use Rattle.stores.specs.Proper.{flat_proper};

use crate::bench::Bench;
use crate::bits::with_low_bits;
use crate::fault::Fault;
use crate::store::{CONTENT_BITS, CONTENT_LIMIT, Store, limited};

#[derive(Drop)]
pub struct Flat<'a> {
    cells: &'a mut [u32],
}

impl<'a> Flat<'a> {
    pub fn new(cells: &'a mut [u32]) -> Flat<'a>
        ensures cells { result.cells.now ≡ cells.old }
        ensures lent { result.cells.ghost_name ≡ cells.entry.ghost_name }
    {
        Flat { cells }
    }
}

impl Store for Flat<'_> {
    ghost meaning = { λ s. flat_meaning s.cells.now };

    ghost outside = { λ s. outside_cells (above content_bits) (flat_count s.cells.now) s.cells.ghost_name s.cells.now };

    ghost proper = { λ s. flat_proper s.cells.now };

    fn layer(&self) -> u8 {
        1
    }

    fn count(&self) -> u32 {
        limited(self.cells.len())
    }

    fn read(&self, cell: u32) -> Result<u32, Fault> {
        self.test_cell(cell)?;
        Ok(self.cells[cell as usize] % CONTENT_LIMIT)
    }

    fn write(&mut self, cell: u32, content: u32) -> Result<(), Fault> {
        self.test_write(cell, content)?;
        let at = cell as usize;
        self.cells[at] = with_low_bits(self.cells[at], content, CONTENT_BITS);
        Ok(())
    }
}

impl Bench for Flat<'_> {
    fn upset(&mut self, cell: u32, mask: u32) -> Result<(), Fault> {
        self.test_write(cell, mask)?;
        self.cells[cell as usize] ^= mask;
        Ok(())
    }
}
