// Compares the syndrome decode table that the makers of the chip and of the memory print with what the Am2960 code answers,
// at all 64 syndromes and all 65,536 words; and reads every word back from its encoding under both codes.
#![tactic(auto)]

mod marks;

use anyhow::anyhow;
use codes::{Am2960, ByteParity, Code, CodeName, encode, encoded_word, pack};
use marks::{Mark, meant_by, printed_at};

// What was seen at one syndrome, over all words.
#[derive(Clone, Copy, PartialEq, Eq)]
enum Seen {
    Agrees,
    Differs,
    NotCompared,
}

// Whether judging answers otherwise than the mark says, at the cell that holds the word and shows the syndrome.
fn differs(mark: Mark, word: u16, syndrome: u8) -> bool {
    let code = CodeName::Am2960;
    let judged = code.judge(pack(word, code.checks(word) ^ syndrome));
    meant_by(mark, word, syndrome).is_some_and(|meant| meant != judged)
}

fn compare(mark: Mark, syndrome: u8) -> Seen {
    if let Mark::More = mark {
        return Seen::NotCompared;
    }
    if (0..=0xffffu16).any(|word| differs(mark, word, syndrome)) {
        Seen::Differs
    } else {
        Seen::Agrees
    }
}

// How many words come back from their encoding.
fn words_back<C: Code>() -> usize {
    (0..=0xffffu16)
        .filter(|word| encoded_word::<C>(encode::<C>(*word)) == Some(*word))
        .count()
}

fn count(all: &[Seen], seen: Seen) -> usize {
    all.iter().filter(|one| **one == seen).count()
}

fn main(rt: HostRuntime) -> anyhow::Result<()> {
    run(&rt)
}

fn run(rt: &HostRuntime) -> anyhow::Result<()> {
    // An array, so that nothing here asks for memory; the place of what was seen is its syndrome.
    let mut seen = [Seen::NotCompared; 64];
    for (syndrome, one) in (0..64u8).zip(&mut seen) {
        *one = compare(printed_at(syndrome), syndrome);
        if *one == Seen::Differs {
            println!(rt; "syndrome {syndrome}: the code does not answer as the table says")?;
        }
    }
    let agree = count(&seen, Seen::Agrees);
    let differ = count(&seen, Seen::Differs);
    let left_out = count(&seen, Seen::NotCompared);
    println!(rt; "decode table of the Am2960, each syndrome at all 65536 words")?;
    println!(rt;
        "{agree} agree, {differ} differ, {left_out} are marked for more than two errors and not compared"
    )?;
    let am2960 = words_back::<Am2960>();
    let parity = words_back::<ByteParity>();
    println!(rt;
        "words that come back from their encoding: {am2960} under am2960, {parity} under parity"
    )?;
    if differ > 0 || am2960 < 65536 || parity < 65536 {
        return Err(anyhow!("the codes do not answer as they should"));
    }
    Ok(())
}

#[cfg(test)]
mod tests {
    use super::*;
    use codes::Verdict;

    #[test]
    fn the_code_answers_as_the_table_says(rt: HostRuntime) {
        for syndrome in 0..64u8 {
            for word in [0, 1, 512, 0x8000, 0x5a5a, 0xffff] {
                assert!(rt; !differs(printed_at(syndrome), word, syndrome));
            }
        }
    }

    // These ten have an odd number of ones and name no place: mended, with the data as stored.
    #[test]
    fn ten_syndromes_name_nothing(rt: HostRuntime) {
        for syndrome in [7, 13, 31, 47, 50, 55, 56, 59, 61, 62] {
            assert!(rt; matches!(printed_at(syndrome), Mark::More));
            let judged = CodeName::Am2960.judge(pack(3, CodeName::Am2960.checks(3) ^ syndrome));
            assert_eq!(rt; judged.verdict, Verdict::Mended);
            assert_eq!(rt; judged.word, 3);
        }
    }
}
