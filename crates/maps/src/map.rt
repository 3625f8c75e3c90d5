// A bank map over any store.
ghost use Rattle.std.specs.Prelude.{◌≡◌};
ghost use Rattle.std.specs.Option.{ok_or};
ghost use Rattle.stores.specs.Faults.{fault};
ghost use Rattle.stores.specs.declared.fault.Cause.TheVariants.{NotFitted};
ghost use Rattle.maps.specs.Banks.{cell_below};
ghost use Rattle.maps.specs.Maps.{banks_of, mapped, mapped_proper};

use crate::banks::BankMap;
use stores::{Bench, Cause, Fault, Store};

#[derive(Drop)]
pub struct Map<'m, S: Store> {
    map: &'m BankMap,
    below: S,
}

impl<'m, S: Store> Map<'m, S> {
    pub fn new(map: &'m BankMap, below: S) -> Map<'m, S>
        ensures map { result.map.now ≡ map.now }
        ensures below { result.below ≡ below }
    {
        Map { map, below }
    }
}

impl<S: Store> Map<'_, S> {
    // The cell below that a cell stands for.
    fn cell_below(&self, cell: u32) -> Result<u32, Fault>
        ensures { result ≡ ok_or (cell_below (banks_of self.now.map.now) 0 cell) (fault NotFitted 3 cell) }
    {
        self.map
            .cell_below(cell)
            .ok_or(self.fault(Cause::NotFitted, cell))
    }
}

impl<S: Store> Store for Map<'_, S> {
    ghost meaning = { λ m. mapped m.map.now (S.Store.meaning m.below) };

    ghost outside = { λ m. S.Store.outside m.below };

    ghost proper = { λ m. mapped_proper m.map.now (S.Store.meaning m.below) (S.Store.proper m.below) };

    fn layer(&self) -> u8 {
        3
    }

    fn count(&self) -> u32 {
        self.map.count()
    }

    fn read(&self, cell: u32) -> Result<u32, Fault> {
        self.test_cell(cell)?;
        let below = self.cell_below(cell)?;
        self.below.read(below)
    }

    fn write(&mut self, cell: u32, content: u32) -> Result<(), Fault> {
        self.test_write(cell, content)?;
        let below = self.cell_below(cell)?;
        self.below.write(below, content)
    }
}

// Like a write but for the call that is passed on: a closure for that call would want a contract longer than the three lines.
impl<S: Bench> Bench for Map<'_, S> {
    fn upset(&mut self, cell: u32, mask: u32) -> Result<(), Fault> {
        self.test_write(cell, mask)?;
        let below = self.cell_below(cell)?;
        self.below.upset(below, mask)
    }
}
