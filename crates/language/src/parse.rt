// A line as the act that it asks for.
ghost use Rattle.std.specs.Prelude.{◌≡◌, option_map};
ghost use Rattle.lines.specs.Lines.{left};
ghost use Rattle.language.specs.Acts.{told, code_named, named, act_of, parsed};
ghost use Rattle.language.specs.Acts.{code_act, place_act, checks_act, judge_act, card_act, bench_act};
ghost use Rattle.language.specs.Acts.{dati_act, datip_act, dato_act, datob_act, strike_act, cell_act};

use crate::act::{Act, AskedPlacement};
use crate::dialect::Dialect;
use crate::parts::{MOST_NUMBER, end_of_line, is, one_number, three_numbers, two_numbers};
use crate::store_line::store_act;
use crate::wrong::{Expected, Wrong};
use codes::CodeName;
use lines::Words;

const MOST_WORD: u32 = u16::MAX as u32;

const MOST_BYTE: u32 = u8::MAX as u32;

const MOST_CHECKS: u32 = 63;

// The act of a line, or none where the line has no word.
pub fn parse_line<'a>(dialect: Dialect, line: &'a [u8]) -> Result<Option<Act>, Wrong<'a>>
    ensures { told result ≡ parsed dialect line.now }
{
    let mut words = Words::new(line);
    match words.next() {
        None => Ok(None),
        Some(keyword) => Ok(Some(act_after(dialect, keyword, words)?)),
    }
}

// A chain of tests, and no match on byte strings: tried, and the proof then joins the bytes of each of eighteen arms by hand.
// Never inlined, so that a line without a word does not pay for what the acts keep on the stack.
#[inline(never)]
fn act_after<'a>(dialect: Dialect, keyword: &'a [u8], words: Words<'a>) -> Result<Act, Wrong<'a>>
    ensures { told result ≡ act_of dialect keyword.now (left words.entry) }
{
    if is(keyword, "code") {
        code_act(words)
    } else if is(keyword, "store") {
        store_act(words)
    } else if is(keyword, "checks") {
        checks_act(words)
    } else if is(keyword, "judge") {
        judge_act(words)
    } else {
        match dialect {
            Dialect::Cards => card_act(keyword, words),
            Dialect::Stores => bench_act(dialect, keyword, words),
        }
    }
}

// The lines that place a card and call it; a chain of tests as above. Transfers come before `place`, which stands once in a job.
fn card_act<'a>(keyword: &'a [u8], words: Words<'a>) -> Result<Act, Wrong<'a>>
    ensures { told result ≡ card_act keyword.now (left words.entry) }
{
    if is(keyword, "dati") {
        dati_act(words)
    } else if is(keyword, "datip") {
        datip_act(words)
    } else if is(keyword, "dato") {
        dato_act(words)
    } else if is(keyword, "datob") {
        datob_act(words)
    } else if is(keyword, "place") {
        place_act(words)
    } else {
        bench_act(Dialect::Cards, keyword, words)
    }
}

// What a bench does to the cells of a store; the chain that ends both others.
#[inline(always)]
fn bench_act<'a>(dialect: Dialect, keyword: &'a [u8], words: Words<'a>) -> Result<Act, Wrong<'a>>
    ensures { told result ≡ bench_act dialect keyword.now (left words.entry) }
{
    if is(keyword, "strike") {
        strike_act(words)
    } else if is(keyword, "cell") {
        cell_act(words)
    } else {
        Err(Wrong {
            expected: Expected::Act(dialect),
            found: Some(keyword),
        })
    }
}

fn code_act<'a>(mut words: Words<'a>) -> Result<Act, Wrong<'a>>
    ensures { told result ≡ code_act (left words.entry) }
{
    let name = code_name(words.next())?;
    end_of_line(words)?;
    Ok(Act::Code(name))
}

fn place_act<'a>(words: Words<'a>) -> Result<Act, Wrong<'a>>
    ensures { told result ≡ place_act (left words.entry) }
{
    let (capacity, start, control) = three_numbers(words, MOST_NUMBER)?;
    Ok(Act::Place(AskedPlacement {
        capacity,
        start,
        control,
    }))
}

fn checks_act<'a>(words: Words<'a>) -> Result<Act, Wrong<'a>>
    ensures { told result ≡ checks_act (left words.entry) }
{
    let word = one_number(words, MOST_WORD)? as u16;
    Ok(Act::Checks { word })
}

fn judge_act<'a>(words: Words<'a>) -> Result<Act, Wrong<'a>>
    ensures { told result ≡ judge_act (left words.entry) }
{
    let (data, checks) = two_numbers(words, MOST_WORD, MOST_CHECKS)?;
    Ok(Act::Judge {
        data: data as u16,
        checks: checks as u8,
    })
}

fn dati_act<'a>(words: Words<'a>) -> Result<Act, Wrong<'a>>
    ensures { told result ≡ dati_act (left words.entry) }
{
    let address = one_number(words, MOST_NUMBER)?;
    Ok(Act::Dati { address })
}

fn datip_act<'a>(words: Words<'a>) -> Result<Act, Wrong<'a>>
    ensures { told result ≡ datip_act (left words.entry) }
{
    let address = one_number(words, MOST_NUMBER)?;
    Ok(Act::Datip { address })
}

// Like the next in shape alone: the numbers have other limits, and the act is another.
fn dato_act<'a>(words: Words<'a>) -> Result<Act, Wrong<'a>>
    ensures { told result ≡ dato_act (left words.entry) }
{
    let (address, word) = two_numbers(words, MOST_NUMBER, MOST_WORD)?;
    Ok(Act::Dato {
        address,
        word: word as u16,
    })
}

fn datob_act<'a>(words: Words<'a>) -> Result<Act, Wrong<'a>>
    ensures { told result ≡ datob_act (left words.entry) }
{
    let (address, byte) = two_numbers(words, MOST_NUMBER, MOST_BYTE)?;
    Ok(Act::Datob {
        address,
        byte: byte as u8,
    })
}

fn strike_act<'a>(words: Words<'a>) -> Result<Act, Wrong<'a>>
    ensures { told result ≡ strike_act (left words.entry) }
{
    let (cell, mask) = two_numbers(words, MOST_NUMBER, MOST_NUMBER)?;
    Ok(Act::Strike { cell, mask })
}

fn cell_act<'a>(words: Words<'a>) -> Result<Act, Wrong<'a>>
    ensures { told result ≡ cell_act (left words.entry) }
{
    let cell = one_number(words, MOST_NUMBER)?;
    Ok(Act::Cell { cell })
}

fn code_name<'a>(word: Option<&'a [u8]>) -> Result<CodeName, Wrong<'a>>
    ensures { told result ≡ named (option_map (λ w. w.now) word.entry) }
{
    word.and_then(code_named).ok_or(Wrong {
        expected: Expected::CodeName,
        found: word,
    })
}

// A chain of tests, as the acts.
fn code_named(word: &[u8]) -> Option<CodeName>
    ensures { result ≡ code_named word.now }
{
    if is(word, "am2960") {
        Some(CodeName::Am2960)
    } else if is(word, "parity") {
        Some(CodeName::Parity)
    } else {
        None
    }
}
