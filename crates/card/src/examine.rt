// The examination of a cell, which every access that reads one shares.
ghost use Rattle.std.specs.Prelude.{◌≡◌, Ok};
ghost use Rattle.card.specs.Modules.{state_of, on_module, Stays};
ghost use Rattle.rules.specs.Transfers.{examined, look_at, looked};

use crate::module::Module;
use codes::{Code, Verdict, data_of};
use rules::Look;
use stores::{Fault, Store};

// What stays stands in each contract, since it relates before and after.
impl<S: Store, C: Code> Module<S, C> {
    // Fetches the cell of a word and examines it; a cell that is not fitted changes nothing.
    pub(crate) fn look(&mut self, word: u32) -> Result<Look, Fault>
        ensures answers { result ≡ on_module look_at C.Code.meaning S.Store.meaning self.old word ((S.Store.meaning self.old.store).at word) }
        ensures leaves { state_of S.Store.meaning self.new ≡ on_module looked C.Code.meaning S.Store.meaning self.old word ((S.Store.meaning self.old.store).at word) }
        ensures stays { Stays S.Store.outside self.old self.new }
    {
        let content = self.store.read(word)?;
        Ok(self.examine(word, content))
    }

    // Judges a cell; sets bit 4, the log, bit 15 and the tally by the verdict.
    fn examine(&mut self, word: u32, content: u32) -> Look
        ensures answers { Ok result ≡ on_module look_at C.Code.meaning S.Store.meaning self.old word (Ok content) }
        ensures leaves { state_of S.Store.meaning self.new ≡ on_module examined C.Code.meaning S.Store.meaning self.old word content }
        ensures stays { Stays S.Store.outside self.old self.new }
    {
        let judged = C::judge(content);
        let block = self.placement.block(word);
        let treatment = self
            .registers
            .examine(word, judged.verdict, block, judged.syndrome);
        self.tallies.count(word, treatment);
        let word = match treatment {
            Verdict::Mended => judged.word,
            _ => data_of(content),
        };
        Look {
            content,
            treatment,
            word,
        }
    }
}
