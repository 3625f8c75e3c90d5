// A store line as the act that it asks for.
ghost use Rattle.std.specs.Prelude.{◌≡◌};
ghost use Rattle.lines.specs.Lines.{left};
ghost use Rattle.language.specs.Acts.{told, bank_list, asked_map, make_act, store_act};
ghost use Rattle.language.specs.Acts.{flat_act, split_act, pair_act, map_act, banks_act};

use crate::act::Act;
use crate::make::{AskedMap, BankList, Make};
use crate::parts::{MOST_NUMBER, bounded, is, one_number, two_numbers};
use crate::wrong::{Expected, Wrong};
use lines::Words;
use maps::Bank;

pub(crate) fn store_act<'a>(mut words: Words<'a>) -> Result<Act, Wrong<'a>>
    ensures { told result ≡ store_act (left words.entry) }
{
    let make = words.next().ok_or(Wrong {
        expected: Expected::Make,
        found: None,
    })?;
    make_act(make, words)
}

// A chain of tests, as the acts.
fn make_act<'a>(make: &'a [u8], words: Words<'a>) -> Result<Act, Wrong<'a>>
    ensures { told result ≡ make_act make.now (left words.entry) }
{
    if is(make, "flat") {
        flat_act(words)
    } else if is(make, "split") {
        split_act(words)
    } else if is(make, "pair") {
        pair_act(words)
    } else if is(make, "map") {
        map_act(words)
    } else if is(make, "banks") {
        banks_act(words)
    } else {
        Err(Wrong {
            expected: Expected::Make,
            found: Some(make),
        })
    }
}

fn flat_act<'a>(words: Words<'a>) -> Result<Act, Wrong<'a>>
    ensures { told result ≡ flat_act (left words.entry) }
{
    let cells = one_number(words, MOST_NUMBER)?;
    Ok(Act::Store(Make::Flat { cells }))
}

fn split_act<'a>(words: Words<'a>) -> Result<Act, Wrong<'a>>
    ensures { told result ≡ split_act (left words.entry) }
{
    let cells = one_number(words, MOST_NUMBER)?;
    Ok(Act::Store(Make::Split { cells }))
}

fn pair_act<'a>(words: Words<'a>) -> Result<Act, Wrong<'a>>
    ensures { told result ≡ pair_act (left words.entry) }
{
    let (first, second) = two_numbers(words, MOST_NUMBER, MOST_NUMBER)?;
    Ok(Act::Store(Make::Pair { first, second }))
}

fn map_act<'a>(mut words: Words<'a>) -> Result<Act, Wrong<'a>>
    ensures { told result ≡ map_act (left words.entry) }
{
    let cells = bounded(words.next(), MOST_NUMBER)?;
    let map = asked_map(words)?;
    Ok(Act::Store(Make::Map { cells, map }))
}

fn banks_act<'a>(mut words: Words<'a>) -> Result<Act, Wrong<'a>>
    ensures { told result ≡ banks_act (left words.entry) }
{
    let first = bounded(words.next(), MOST_NUMBER)?;
    let second = bounded(words.next(), MOST_NUMBER)?;
    let map = asked_map(words)?;
    Ok(Act::Store(Make::Banks { first, second, map }))
}

// The count of a bank map, and its banks up to the end of the line.
fn asked_map<'a>(mut words: Words<'a>) -> Result<AskedMap, Wrong<'a>>
    ensures { told result ≡ asked_map (left words.entry) }
{
    let count = bounded(words.next(), MOST_NUMBER)?;
    let banks = bank_list(words)?;
    Ok(AskedMap { count, banks })
}

// The banks up to the end of the line, each an offset and a length.
fn bank_list<'a>(mut words: Words<'a>) -> Result<BankList, Wrong<'a>>
    ensures { told result ≡ bank_list (left words.entry) }
{
    let mut list = BankList::new();
    while let Some(word) = words.next() {
        let offset = bounded(Some(word), MOST_NUMBER)?;
        let length = bounded(words.next(), MOST_NUMBER)?;
        list.push(Bank { offset, length });
    }
    Ok(list)
}
