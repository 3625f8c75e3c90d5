// The trait of bench stores: stores whose cells can be struck.
ghost use Rattle.std.specs.Prelude.{◌≡◌};
ghost use Rattle.stores.specs.Meaning.{write_answer, upset_by};

use crate::fault::Fault;
use crate::store::Store;

pub trait Bench: Store {
    // Inverts the bits of a cell that the mask names; refused as a write of the mask would be.
    fn upset(&mut self, cell: u32, mask: u32) -> Result<(), Fault>
        ensures answers { result ≡ write_answer (Self.Store.meaning self.old) cell mask }
        ensures leaves { Self.Store.meaning self.new ≡ upset_by (Self.Store.meaning self.old) cell mask }
        ensures keeps { Self.Store.outside self.new ≡ Self.Store.outside self.old };
}
