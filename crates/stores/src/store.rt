// The trait of stores.
ghost use Rattle.std.specs.Prelude.{◌≡◌};
ghost use Rattle.stores.specs.Faults.{fault};
ghost use Rattle.stores.specs.Layers.{limited};
ghost use Rattle.stores.specs.Meaning.{Meaning, Proper, tested_cell, tested, written, write_answer};
ghost use Rattle.stores.specs.Memory.{Outside};

use crate::fault::{Cause, Fault};
use crate::refusal::{test_cell, test_write};

// No store has more cells than this; a longer memory counts as this long.
pub const MOST_CELLS: u32 = 524288;

// A content has 22 bits, so it is below 4,194,304.
pub const CONTENT_BITS: u32 = 22;

pub const CONTENT_LIMIT: u32 = 1 << CONTENT_BITS;

// A row of cells of any make. It means its layer number, its count, and for each cell a content or a fault.
pub trait Store {
    ghost meaning: { Self → Meaning };

    // What lies outside the cells in the memory that the store was lent; no call changes it, which each contract says, since no
    // invariant of a store can relate before and after.
    ghost outside: { Self → Outside };

    ghost proper: { (s : Self) → Proper (meaning s) };

    // The number of the layer, which its own faults carry.
    fn layer(&self) -> u8
        ensures { result ≡ (meaning self.now).layer };

    fn count(&self) -> u32
        ensures { result ≡ (meaning self.now).count };

    // The fault of that cause that the layer itself raises of a cell.
    fn fault(&self, cause: Cause, cell: u32) -> Fault
        ensures { result ≡ fault cause (meaning self.now).layer cell }
    {
        Fault {
            cause,
            layer: self.layer(),
            cell,
        }
    }

    // What a call tests first of a cell: one at or past the count is refused.
    fn test_cell(&self, cell: u32) -> Result<(), Fault>
        ensures { result ≡ tested_cell (meaning self.now).layer (meaning self.now).count cell }
    {
        test_cell(self.layer(), self.count(), cell)
    }

    // What a call tests first of a cell and a number to be written there: then one that is too wide is refused.
    fn test_write(&self, cell: u32, number: u32) -> Result<(), Fault>
        ensures { result ≡ tested (meaning self.now).layer (meaning self.now).count cell number }
    {
        test_write(self.layer(), self.count(), cell, number)
    }

    // The content of a cell, or its fault.
    fn read(&self, cell: u32) -> Result<u32, Fault>
        ensures { result ≡ (meaning self.now).at cell };

    // Sets the content of a fitted cell; any other write answers the fault and alters nothing.
    fn write(&mut self, cell: u32, content: u32) -> Result<(), Fault>
        ensures answers { result ≡ write_answer (meaning self.old) cell content }
        ensures leaves { meaning self.new ≡ written (meaning self.old) cell content }
        ensures keeps { outside self.new ≡ outside self.old };
}

// The count of so many cells.
pub(crate) fn limited(cells: usize) -> u32
    ensures { result ≡ limited cells }
{
    cells.min(MOST_CELLS as usize) as u32
}
