// Texts of answers.
use answers::{Answer, Refused, Totals};
use codes::{Judgement, Verdict};
use std::test::Fail;
use stores::{Cause, Fault};

#[test]
fn texts_of_answers(rt: HostRuntime) -> Result<(), Fail> {
    let heap = rt.alloc();
    let judged = Answer::Judged(Judgement {
        verdict: Verdict::Mended,
        word: 65535,
        syndrome: 63,
    });
    let answer = format!(in heap; "{judged}")?;
    assert!(rt; answer.as_str() == "mended 65535 syndrome 63");
    let faulted = Answer::Faulted(Fault {
        cause: Cause::NotFitted,
        layer: 255,
        cell: 4294967295,
    });
    let fault = format!(in heap; "{faulted}")?;
    assert!(rt; fault.as_str() == "fault cause 3 layer 255 cell 4294967295");
    Ok(())
}

// A refusal that is known by its number alone, and one that carries an address and a fault.
#[test]
fn refusals_by_their_numbers(rt: HostRuntime) -> Result<(), Fail> {
    let heap = rt.alloc();
    let alone = Answer::Refused(Refused::Numbered {
        number: 200,
        carried: None,
    });
    let told = format!(in heap; "{alone}")?;
    assert!(rt; told.as_str() == "refused 200");
    let fault = Fault {
        cause: Cause::PastCount,
        layer: 2,
        cell: 9,
    };
    let carrying = Answer::Refused(Refused::Numbered {
        number: 3,
        carried: Some((4194303, fault)),
    });
    let more = format!(in heap; "{carrying}")?;
    assert!(rt; more.as_str() == "refused 3 address 4194303 cause 1 layer 2 cell 9");
    let mut totals = Totals::new();
    totals.count(alone);
    totals.count(carrying);
    let closing = format!(in heap; "{totals}")?;
    assert!(rt; closing.as_str() == "done: 2 calls, 0 granted, 2 refused, 0 struck");
    Ok(())
}
