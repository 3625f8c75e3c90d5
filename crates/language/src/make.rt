// The makes of store that a line of a job can ask for.
ghost use Rattle.std.specs.Prelude.{◌≡◌, List, [], ◌∷◌, ◌++◌, take};
ghost use Rattle.maps.specs.Maps.{made_map, new_map};
ghost use Rattle.language.specs.Acts.{listed};

use maps::{Bank, BankMap, NoMap};

// A map has at most eight banks. A ninth already makes it none, so those after the ninth change nothing.
pub(crate) const MOST_LISTED: usize = 9;

#[derive(Clone, Copy)]
pub enum Make {
    Flat {
        cells: u32,
    },
    Split {
        cells: u32,
    },
    // A flat store of the first count of cells, and a split store of the second.
    Pair {
        first: u32,
        second: u32,
    },
    // A bank map over a flat store.
    Map {
        cells: u32,
        map: AskedMap,
    },
    // A pair of two stores, each that map over a split store.
    Banks {
        first: u32,
        second: u32,
        map: AskedMap,
    },
}

// A bank map as a line asks for it; there may be none of this count and these banks.
#[derive(Clone, Copy)]
pub struct AskedMap {
    pub count: u32,
    pub banks: BankList,
}

impl AskedMap {
    // The map, or its refusal.
    pub fn to_map(&self) -> Result<BankMap, NoMap>
        ensures { made_map result ≡ new_map self.now.count (take self.now.banks.used self.now.banks.banks) }
    {
        BankMap::new(self.count, self.banks.as_slice())
    }
}

// The first banks of a line, in its order. The places that are not used hold empty banks.
// The length stands beside the array since a line is read without memory of its own, and an act is copied.
#[derive(Clone, Copy)]
pub struct BankList {
    pub banks: [Bank; MOST_LISTED],
    pub used: usize,
}

impl BankList {
    pub(crate) fn new() -> BankList
        ensures { result ≡ listed [] }
    {
        BankList {
            banks: [Bank {
                offset: 0,
                length: 0,
            }; MOST_LISTED],
            used: 0,
        }
    }

    fn as_slice(&self) -> &[Bank]
        ensures { result.now ≡ take self.now.used self.now.banks }
    {
        &self.banks[..self.used.min(MOST_LISTED)]
    }

    // One bank more at the end of those that are listed, which changes nothing where there is no room for it.
    pub(crate) fn push(&mut self, bank: Bank)
        ensures { (seen : List Bank) → self.old ≡ listed seen → self.new ≡ listed (seen ++ bank ∷ []) }
    {
        if self.used < MOST_LISTED {
            self.banks[self.used] = bank;
            self.used += 1;
        }
    }
}
