// Jobs line by line: what is answered, and what is wrong where.
use crate::said::{DIALECTS, wrong};
use answers::{Answer, Refused};
use bench::{CardJob, Job, Stage, StoreJob};
use card::{Placement, Refusal, WordRead};
use codes::{Am2960, CodeName, Judgement, Verdict};
use language::{AskedPlacement, Dialect, Expected, Make, Wrong};
use std::ops::ControlFlow;
use std::test::Fail;
use stores::{Cause, Fault, Flat};

#[test]
fn the_head_of_a_job(rt: HostRuntime) {
    for dialect in DIALECTS {
        let mut job = Job::new(dialect);
        assert!(rt; is_wrong(job.run_line(b"store flat 6"), Expected::CodeFirst, b"store"));
        assert!(rt;
            matches!(
                job.run_line(b"code am2960"),
                Ok(ControlFlow::Continue(None))
            )
        );
        assert!(rt; job.run_line(b"code parity x").is_err());
        assert!(rt;
            matches!(
                job.run_line(b"checks 512"),
                Ok(ControlFlow::Continue(Some(Answer::Checks { checks: 41 })))
            )
        );
        assert!(rt; is_wrong(job.run_line(b"cell 1"), Expected::StoreFirst, b"cell"));
        if dialect == Dialect::Cards {
            assert!(rt;
                is_wrong(
                    job.run_line(b"place 8192 0 0"),
                    Expected::StoreFirst,
                    b"place"
                )
            );
            assert!(rt; is_wrong(job.run_line(b"dati 0"), Expected::PlaceFirst, b"dati"));
        }
        assert!(rt;
            matches!(
                job.run_line(b"store flat 6"),
                Ok(ControlFlow::Break((CodeName::Am2960, Make::Flat { cells: 6 })))
            )
        );
    }
}

#[test]
fn a_job_on_a_store(rt: HostRuntime) {
    for dialect in DIALECTS {
        let mut cells = [0; 6];
        let mut job = StoreJob::new(dialect, CodeName::Am2960, Flat::new(&mut cells));
        assert_eq!(rt; job.run_line(b"strike 4 0o14"), answered(Answer::Struck));
        let content = Answer::Content { content: 12 };
        assert_eq!(rt; job.run_line(b"cell 4"), answered(content));
        let fault = Fault {
            cause: Cause::PastCount,
            layer: 1,
            cell: 6,
        };
        assert_eq!(rt;
            job.run_line(b"strike 6 1"),
            answered(Answer::Faulted(fault))
        );
        let mended = Answer::Judged(Judgement {
            verdict: Verdict::Mended,
            word: 512,
            syndrome: 37,
        });
        assert_eq!(rt; job.run_line(b"judge 0 41"), answered(mended));
        assert_eq!(rt;
            job.run_line(b"code parity"),
            wrong(Expected::HeadOnce(dialect), b"code")
        );
        if dialect == Dialect::Cards {
            assert_eq!(rt;
                job.run_line(b"datob 0 0"),
                wrong(Expected::PlaceFirst, b"datob")
            );
            let asked = AskedPlacement {
                capacity: 8192,
                start: 16384,
                control: 15,
            };
            assert_eq!(rt;
                job.run_line(b"place 8192 16384 15"),
                Ok(ControlFlow::Break(asked))
            );
        }
    }
}

#[test]
fn a_job_on_a_card(rt: HostRuntime) -> Result<(), Fail> {
    let mut cells = [0; 6];
    let job = StoreJob::new(Dialect::Cards, CodeName::Am2960, Flat::new(&mut cells));
    let mut job = CardJob::new(Placement::new(8192, 0, 0)?, job, Am2960);
    let sound = Answer::Treated {
        treatment: Verdict::Sound,
    };
    assert!(rt; answers(job.run_line(b"dato 8 512"), sound));
    assert!(rt; answers(job.run_line(b"strike 4 512"), Answer::Struck));
    let mended = Answer::Word(WordRead {
        word: 512,
        treatment: Verdict::Mended,
        parity: false,
    });
    assert!(rt; answers(job.run_line(b"datip 8"), mended));
    let fault = Fault {
        cause: Cause::PastCount,
        layer: 1,
        cell: 6,
    };
    let refused = Refused::Call(Refusal::Store { address: 13, fault });
    assert_eq!(rt; refused.number(), 8);
    assert!(rt; answers(job.run_line(b"dati 13"), Answer::Refused(refused)));
    assert!(rt;
        is_wrong(
            job.run_line(b"place 8192 0 0"),
            Expected::HeadOnce(Dialect::Cards),
            b"place"
        )
    );
    let totals = job.totals;
    let done = format!(in rt.alloc(); "{totals}")?;
    assert!(rt; done.as_str() == "done: 3 calls, 2 granted, 1 refused, 1 struck");
    Ok(())
}

fn answered<'a>(answer: Answer) -> Result<ControlFlow<AskedPlacement, Option<Answer>>, Wrong<'a>> {
    Ok(ControlFlow::Continue(Some(answer)))
}

// Whether a line was answered so, at a stage whose end cannot be compared.
fn answers<T: Drop>(
    given: Result<ControlFlow<T, Option<Answer>>, Wrong<'_>>,
    answer: Answer,
) -> bool {
    matches!(given, Ok(ControlFlow::Continue(Some(seen))) if seen == answer)
}

fn is_wrong<T: Drop>(given: Result<T, Wrong<'_>>, expected: Expected, found: &[u8]) -> bool {
    given.err() == wrong::<()>(expected, found).err()
}
