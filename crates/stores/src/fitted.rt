// Which cells of a store are fitted.
ghost use Rattle.std.specs.Prelude.{◌≡◌, is_ok};
ghost use Rattle.stores.specs.Meaning.{FrameStays};

use crate::store::Store;

// Whether the cell has a content. No write and no upset changes that, nor the layer number, the count or a fault.
pub fn is_fitted<S: Store>(store: &S, cell: u32) -> bool
    ensures value { result ≡ is_ok ((S.Store.meaning store.now).at cell) }
    ensures stays { FrameStays (S.Store.meaning store.now) }
{
    store.read(cell).is_ok()
}
