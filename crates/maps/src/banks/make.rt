// Making a bank map, and finding a cell by it.
ghost use Rattle.std.specs.Prelude.{◌≡◌};
ghost use Rattle.maps.specs.Banks.{in_order, cell_below, follows as does_follow, inside as is_inside};
ghost use Rattle.maps.specs.Maps.{count_of, banks_of, made_map, new_map, no_map_number};

use crate::bank::Bank;
use crate::banks::{BankMap, MOST_BANKS};
use stores::MOST_CELLS;

const NO_BANK: Bank = Bank {
    offset: 0,
    length: 0,
};

// A count and banks that are no map.
#[derive(Clone, Copy, PartialEq, Eq, Debug)]
pub struct NoMap;

impl NoMap {
    // The number of this refusal.
    pub fn number(self) -> u8
        ensures { result ≡ no_map_number }
    {
        4
    }
}

impl BankMap {
    pub fn new(count: u32, banks: &[Bank]) -> Result<BankMap, NoMap>
        ensures { made_map result ≡ new_map count banks.now }
    {
        if count > MOST_CELLS || banks.len() > MOST_BANKS || !ordered(count, banks) {
            return Err(NoMap);
        }
        let mut places = [NO_BANK; MOST_BANKS];
        places[..banks.len()].copy_from_slice(banks);
        Ok(BankMap {
            count,
            used: banks.len(),
            banks: places,
        })
    }

    pub fn count(&self) -> u32
        ensures { result ≡ count_of self.now }
    {
        self.count
    }

    // The cell below that a cell stands for, or none where it is not fitted.
    pub fn cell_below(&self, cell: u32) -> Option<u32>
        ensures { result ≡ cell_below (banks_of self.now) 0 cell }
    {
        let mut before = 0;
        for bank in &self.banks[..self.used] {
            // The banks are in order, so none that follows holds the cell.
            if cell < bank.offset {
                return None;
            }
            if inside(*bank, cell) {
                return Some(before + (cell - bank.offset));
            }
            before += bank.length;
        }
        None
    }
}

// Whether each bank begins at or after the end of the one before it, is not empty, and ends within the count.
fn ordered(count: u32, banks: &[Bank]) -> bool
    ensures { result ≡ in_order count 0 banks.now }
{
    let mut from = 0;
    for bank in banks {
        if !follows(count, from, *bank) {
            return false;
        }
        from = bank.offset + bank.length;
    }
    true
}

fn follows(count: u32, from: u32, bank: Bank) -> bool
    ensures { result ≡ does_follow count from bank }
{
    bank.offset >= from
        && bank.length > 0
        && bank.offset <= count
        && bank.length <= count - bank.offset
}

fn inside(bank: Bank, cell: u32) -> bool
    ensures { result ≡ is_inside bank cell }
{
    cell >= bank.offset && cell - bank.offset < bank.length
}
