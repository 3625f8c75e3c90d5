// The pair: two stores of any make, whose cells are taken in turn.
ghost use Rattle.std.specs.Prelude.{◌≡◌};
ghost use Rattle.stores.specs.Layers.{pair as pair_meaning};
ghost use Rattle.stores.specs.Memory.{both};
ghost use Rattle.stores.specs.Proper.{pair_proper};

use crate::bench::Bench;
use crate::fault::Fault;
use crate::store::{MOST_CELLS, Store};

#[derive(Drop)]
pub struct Pair<F: Store, S: Store> {
    first: F,
    second: S,
}

impl<F: Store, S: Store> Pair<F, S> {
    pub fn new(first: F, second: S) -> Pair<F, S>
        ensures first { result.first ≡ first }
        ensures second { result.second ≡ second }
    {
        Pair { first, second }
    }
}

impl<F: Store, S: Store> Store for Pair<F, S> {
    ghost meaning = { λ p. pair_meaning (F.Store.meaning p.first) (S.Store.meaning p.second) };

    ghost outside = { λ p. both (F.Store.outside p.first) (S.Store.outside p.second) };

    ghost proper = { λ p. pair_proper (F.Store.meaning p.first) (S.Store.meaning p.second) (F.Store.proper p.first) (S.Store.proper p.second) };

    fn layer(&self) -> u8 {
        2
    }

    fn count(&self) -> u32 {
        let least = self.first.count().min(self.second.count());
        2 * least.min(MOST_CELLS / 2)
    }

    fn read(&self, cell: u32) -> Result<u32, Fault> {
        self.test_cell(cell)?;
        if cell % 2 == 0 {
            self.first.read(cell / 2)
        } else {
            self.second.read(cell / 2)
        }
    }

    fn write(&mut self, cell: u32, content: u32) -> Result<(), Fault> {
        self.test_write(cell, content)?;
        if cell % 2 == 0 {
            self.first.write(cell / 2, content)
        } else {
            self.second.write(cell / 2, content)
        }
    }
}

// Like a write but for the call that is passed on. Each call chooses its half by itself: the halves differ in type, so a choice
// made once is an enum with two arms again, tried, and longer.
impl<F: Bench, S: Bench> Bench for Pair<F, S> {
    fn upset(&mut self, cell: u32, mask: u32) -> Result<(), Fault> {
        self.test_write(cell, mask)?;
        if cell % 2 == 0 {
            self.first.upset(cell / 2, mask)
        } else {
            self.second.upset(cell / 2, mask)
        }
    }
}
