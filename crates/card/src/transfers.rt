// The bus transfers: DATI, DATIP, DATO and DATOB, to words and to the control word.
ghost use Rattle.std.specs.Prelude.{◌≡◌, true, is_ok};
ghost use Rattle.stores.specs.Meaning.{granted};
ghost use Rattle.rules.specs.Calls.{dati, datip, dato, datob, read_answer, wrote_answer};
ghost use Rattle.card.specs.Modules.{state_of, on_module, answer_to, state_after, Stays};
ghost use Rattle.rules.specs.Transfers.{read_cell, write_byte, cell_for, put, put_if_fitted, merged};

use crate::content::Content;
use crate::module::Module;
use codes::{Code, Verdict, stored_checks};
use rules::{Refusal, Target, Treatment, WordRead, carry};
use stores::{Fault, Store};

// What stays stands in each contract: it relates before and after, so no invariant of the module can hold it.
impl<S: Store, C: Code> Module<S, C> {
    // Reads the word, or the control word, at a bus address.
    #[tactic(auto, unfolding(rules::specs::Transfers::act))]
    pub fn dati(&mut self, address: u32) -> Result<WordRead, Refusal>
        ensures answers { read_answer result ≡ answer_to C.Code.meaning S.Store.meaning self.old (dati address) }
        ensures leaves { state_of S.Store.meaning self.new ≡ state_after C.Code.meaning S.Store.meaning self.old (dati address) }
        ensures stays { Stays S.Store.outside self.old self.new }
    {
        match self.placement.target(address)? {
            Target::Word(word) => self.read_cell(address, word),
            Target::ControlWord => Ok(WordRead {
                word: self.registers.shown(),
                treatment: Verdict::Sound,
                parity: false,
            }),
        }
    }

    // Reads as DATI does; on the bus a write of the same word follows.
    #[tactic(auto, unfolding(rules::specs::Transfers::act))]
    pub fn datip(&mut self, address: u32) -> Result<WordRead, Refusal>
        ensures answers { read_answer result ≡ answer_to C.Code.meaning S.Store.meaning self.old (datip address) }
        ensures leaves { state_of S.Store.meaning self.new ≡ state_after C.Code.meaning S.Store.meaning self.old (datip address) }
        ensures stays { Stays S.Store.outside self.old self.new }
    {
        self.dati(address)
    }

    fn read_cell(&mut self, address: u32, word: u32) -> Result<WordRead, Refusal>
        ensures answers { read_answer result ≡ (on_module read_cell C.Code.meaning S.Store.meaning self.old address word ((S.Store.meaning self.old.store).at word)).answer }
        ensures leaves { state_of S.Store.meaning self.new ≡ (on_module read_cell C.Code.meaning S.Store.meaning self.old address word ((S.Store.meaning self.old.store).at word)).after }
        ensures stays { Stays S.Store.outside self.old self.new }
    {
        let enabled = self.registers.parity_enabled();
        let look = carry(address, self.look(word))?;
        self.registers
            .load_latch(word, stored_checks::<C>(look.content));
        Ok(WordRead {
            word: look.word,
            treatment: look.treatment,
            parity: enabled && matches!(look.treatment, Verdict::Bad),
        })
    }

    // Writes a word, or the control word, at a bus address.
    #[tactic(auto, unfolding(rules::specs::Transfers::act))]
    pub fn dato(&mut self, address: u32, word: u16) -> Result<Treatment, Refusal>
        ensures answers { wrote_answer result ≡ answer_to C.Code.meaning S.Store.meaning self.old (dato address word) }
        ensures leaves { state_of S.Store.meaning self.new ≡ state_after C.Code.meaning S.Store.meaning self.old (dato address word) }
        ensures stays { Stays S.Store.outside self.old self.new }
    {
        match self.placement.target(address)? {
            Target::Word(at) => carry(address, self.put(at, self.cell_for(at, word)))?,
            Target::ControlWord => self.registers.write_control(word),
        }
        Ok(Verdict::Sound)
    }

    // Writes one byte of a word at a bus address, whose bit 0 picks the high byte.
    #[tactic(auto, unfolding(rules::specs::Transfers::act))]
    pub fn datob(&mut self, address: u32, byte: u8) -> Result<Treatment, Refusal>
        ensures answers { wrote_answer result ≡ answer_to C.Code.meaning S.Store.meaning self.old (datob address byte) }
        ensures leaves { state_of S.Store.meaning self.new ≡ state_after C.Code.meaning S.Store.meaning self.old (datob address byte) }
        ensures stays { Stays S.Store.outside self.old self.new }
    {
        match self.placement.target(address)? {
            Target::Word(word) => self.write_byte(address, word, byte),
            Target::ControlWord => Err(Refusal::ControlByte),
        }
    }

    // Where the treatment is bad, the old cell is written back and the byte is lost.
    fn write_byte(&mut self, address: u32, word: u32, byte: u8) -> Result<Treatment, Refusal>
        ensures answers { wrote_answer result ≡ (on_module write_byte C.Code.meaning S.Store.meaning self.old address word byte ((S.Store.meaning self.old.store).at word)).answer }
        ensures leaves { state_of S.Store.meaning self.new ≡ (on_module write_byte C.Code.meaning S.Store.meaning self.old address word byte ((S.Store.meaning self.old.store).at word)).after }
        ensures stays { Stays S.Store.outside self.old self.new }
    {
        let look = carry(address, self.look(word))?;
        let content = match look.treatment {
            Verdict::Bad => Content { bits: look.content },
            _ => self.cell_for(word, merge(address % 2 == 1, look.word, byte)),
        };
        self.put_fitted(word, content);
        Ok(look.treatment)
    }

    // The cell that a word is written as.
    fn cell_for(&self, word: u32, given: u16) -> Content
        ensures { result.bits ≡ on_module cell_for C.Code.meaning S.Store.meaning self.now word given }
    {
        match self.registers.latched_checks(word) {
            Some(latch) => Content::with_latch::<C>(given, latch),
            None => Content::encoding::<C>(given),
        }
    }

    // Sets the content of a word's cell; refused exactly where the cell is not fitted.
    fn put(&mut self, word: u32, content: Content) -> Result<(), Fault>
        ensures answers { result ≡ granted ((S.Store.meaning self.old.store).at word) }
        ensures leaves { state_of S.Store.meaning self.new ≡ on_module put_if_fitted C.Code.meaning S.Store.meaning self.old word content.bits ((S.Store.meaning self.old.store).at word) }
        ensures stays { Stays S.Store.outside self.old self.new }
    {
        self.store.write(word, content.bits)
    }

    // Sets the content of a cell that was granted before: no second refusal can come.
    fn put_fitted(&mut self, word: u32, content: Content)
        requires { is_ok ((S.Store.meaning self.old.store).at word) ≡ true }
        ensures leaves { state_of S.Store.meaning self.new ≡ on_module put C.Code.meaning S.Store.meaning self.old word content.bits }
        ensures stays { Stays S.Store.outside self.old self.new }
    {
        self.put(word, content).unwrap();
    }
}

// A word with one of its bytes put in.
fn merge(high: bool, word: u16, byte: u8) -> u16
    ensures { result ≡ merged high word byte }
{
    if high {
        (u16::from(byte) << 8) | (word & 0xff)
    } else {
        ((word >> 8) << 8) | u16::from(byte)
    }
}
