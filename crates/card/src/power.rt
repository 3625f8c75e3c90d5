// Power-up: a module made of a placement, a store and a code.
ghost use Rattle.std.specs.Prelude.{◌≡◌};
ghost use Rattle.rules.specs.Targets.{placed};
ghost use Rattle.card.specs.Modules.{state_of};
ghost use Rattle.rules.specs.Laws.{TransferLaws};
ghost use Rattle.rules.specs.Power.{filled, powered_up};

use crate::content::Content;
use crate::module::Module;
use codes::Code;
use rules::{Placement, Registers, Tallies};
use stores::Store;

impl<S: Store, C: Code> Module<S, C> {
    // Fills every fitted cell below the capacity with the encoding of 0, and clears everything else.
    pub fn new(placement: Placement, mut store: S, code: C) -> Module<S, C>
        ensures powered { state_of S.Store.meaning result ≡ powered_up C.Code.meaning (placed placement) (S.Store.meaning store) }
        ensures laws { TransferLaws C.Code.meaning (placed placement) }
        ensures placement { result.placement ≡ placement }
        ensures code { result.code ≡ code }
        ensures memory { S.Store.outside result.store ≡ S.Store.outside store }
    {
        fill(&mut store, placement.capacity(), Content::encoding::<C>(0));
        Module {
            placement,
            store,
            code,
            registers: Registers::new(),
            tallies: Tallies::new(),
            place: 0,
        }
    }
}

// Writes one content into every fitted cell below n; the others refuse it and keep their faults.
fn fill<S: Store>(store: &mut S, n: u32, content: Content)
    ensures leaves { S.Store.meaning store.new ≡ filled (S.Store.meaning store.old) n content.bits }
    ensures memory { S.Store.outside store.new ≡ S.Store.outside store.old }
{
    // Each turn writes to the store, so this is a loop and no chain.
    for cell in 0..n {
        let _ = store.write(cell, content.bits);
    }
}
