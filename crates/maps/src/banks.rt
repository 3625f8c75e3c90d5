// Bank maps: a value type that is always a map.
ghost use Rattle.std.specs.Prelude.{◌≡◌, ◌≤◌, true, take};
ghost use Rattle.maps.specs.Banks.{most_banks, is_map, banks_in};

use crate::bank::Bank;

pub(crate) mod make;

// No map has more banks than this.
const MOST_BANKS: usize = 8;

// A count, and at most eight banks in order that do not overlap and end within the count.
#[derive(Clone, Copy)]
pub struct BankMap {
    count: u32,
    // How many banks there are: without it each search went on to the eighth place, and a card on a map took up to 4.8 times as long
    // to power up.
    used: usize,
    // The banks in their order, and empty ones in the places behind them.
    banks: [Bank; MOST_BANKS],
    ghost lawful: { is_map count (banks_in banks) ≡ true },
    ghost placed: { take used banks ≡ banks_in banks },
    ghost few: { used ≤ most_banks },
}
