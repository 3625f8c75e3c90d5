// What a bench does to the store of a module, past the bus.
ghost use Rattle.std.specs.Prelude.{◌≡◌};
ghost use Rattle.stores.specs.Meaning.{write_answer, upset_by};
ghost use Rattle.rules.specs.State.{with_store};
ghost use Rattle.card.specs.Modules.{state_of, Stays};

use crate::module::Module;
use codes::Code;
use stores::{Bench, Fault};

// What stays stands in each contract, since it relates before and after.
impl<S: Bench, C: Code> Module<S, C> {
    // Inverts the bits of a cell that the mask names; the module takes no notice.
    pub fn upset(&mut self, cell: u32, mask: u32) -> Result<(), Fault>
        ensures answers { result ≡ write_answer (S.Store.meaning self.old.store) cell mask }
        ensures leaves { state_of S.Store.meaning self.new ≡ with_store (state_of S.Store.meaning self.old) (upset_by (S.Store.meaning self.old.store) cell mask) }
        ensures stays { Stays S.Store.outside self.old self.new }
    {
        self.store.upset(cell, mask)
    }

    // The content of a cell as it stands, or its fault; nothing is judged.
    pub fn content(&self, cell: u32) -> Result<u32, Fault>
        ensures { result ≡ (S.Store.meaning self.now.store).at cell }
    {
        self.store.read(cell)
    }
}
