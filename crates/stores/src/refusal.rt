// What the layer that is asked tests first.
ghost use Rattle.std.specs.Prelude.{◌≡◌};
ghost use Rattle.stores.specs.Meaning.{tested_cell, tested};

use crate::fault::{Cause, Fault};
use crate::store::CONTENT_LIMIT;

// Refuses a cell at or past the count.
pub fn test_cell(layer: u8, count: u32, cell: u32) -> Result<(), Fault>
    ensures { result ≡ tested_cell layer count cell }
{
    if cell < count {
        Ok(())
    } else {
        Err(Fault {
            cause: Cause::PastCount,
            layer,
            cell,
        })
    }
}

// Refuses a cell at or past the count, and then a number that is too wide to be written.
pub fn test_write(layer: u8, count: u32, cell: u32, number: u32) -> Result<(), Fault>
    ensures { result ≡ tested layer count cell number }
{
    test_cell(layer, count, cell)?;
    if number < CONTENT_LIMIT {
        Ok(())
    } else {
        Err(Fault {
            cause: Cause::TooWide,
            layer,
            cell,
        })
    }
}
