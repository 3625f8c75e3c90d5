// Lines of a job, good and wrong, in both dialects.
use crate::said::{DIALECTS, wrong};
use codes::CodeName;
use language::{
    Act, AskedMap, AskedPlacement, BankList, Dialect, Expected, Make, Words, Wrong, parse_line,
    wrong_text,
};
use maps::Bank;
use std::test::Fail;

fn mistake(dialect: Dialect, line: &[u8]) -> Result<(), Wrong<'_>> {
    parse_line(dialect, line).map(|_| ())
}

fn ended(expected: Expected) -> Result<(), Wrong<'static>> {
    Err(Wrong {
        expected,
        found: None,
    })
}

#[test]
fn good_lines(rt: HostRuntime) {
    for dialect in DIALECTS {
        assert!(rt;
            matches!(
                parse_line(dialect, b"code am2960"),
                Ok(Some(Act::Code(CodeName::Am2960)))
            )
        );
        assert!(rt;
            matches!(
                parse_line(dialect, b"\tcode \t parity # \xff\x00"),
                Ok(Some(Act::Code(CodeName::Parity)))
            )
        );
        assert!(rt;
            matches!(
                parse_line(dialect, b"checks 65535"),
                Ok(Some(Act::Checks { word: 65535 }))
            )
        );
        assert!(rt;
            matches!(
                parse_line(dialect, b"judge 0o177777 0o77#"),
                Ok(Some(Act::Judge {
                    data: 65535,
                    checks: 63
                }))
            )
        );
        assert!(rt; matches!(parse_line(dialect, b" \t # code am2960"), Ok(None)));
    }
}

#[test]
fn good_lines_of_stores(rt: HostRuntime) {
    for dialect in DIALECTS {
        assert!(rt;
            matches!(
                parse_line(dialect, b"store flat 4294967295"),
                Ok(Some(Act::Store(Make::Flat { cells: 4294967295 })))
            )
        );
        assert!(rt;
            matches!(
                parse_line(dialect, b"store split 0"),
                Ok(Some(Act::Store(Make::Split { cells: 0 })))
            )
        );
        assert!(rt;
            matches!(
                parse_line(dialect, b"store pair 1 0o10"),
                Ok(Some(Act::Store(Make::Pair {
                    first: 1,
                    second: 8
                })))
            )
        );
        assert!(rt;
            matches!(
                parse_line(dialect, b"store banks 1 2 3"),
                Ok(Some(Act::Store(Make::Banks {
                    first: 1,
                    second: 2,
                    map: AskedMap {
                        count: 3,
                        banks: BankList { used: 0, .. }
                    }
                })))
            )
        );
        assert!(rt;
            matches!(
                parse_line(dialect, b"strike 1500 512"),
                Ok(Some(Act::Strike {
                    cell: 1500,
                    mask: 512
                }))
            )
        );
        assert!(rt;
            matches!(
                parse_line(dialect, b"cell 7"),
                Ok(Some(Act::Cell { cell: 7 }))
            )
        );
    }
}

#[test]
fn good_lines_of_cards(rt: HostRuntime) {
    assert!(rt;
        matches!(
            parse_line(Dialect::Cards, b"place 8192 0 16"),
            Ok(Some(Act::Place(AskedPlacement {
                capacity: 8192,
                start: 0,
                control: 16
            })))
        )
    );
    assert!(rt;
        matches!(
            parse_line(Dialect::Cards, b"dati 0o17772100"),
            Ok(Some(Act::Dati { address: 4191296 }))
        )
    );
    assert!(rt;
        matches!(
            parse_line(Dialect::Cards, b"datip 4294967295"),
            Ok(Some(Act::Datip {
                address: 4294967295
            }))
        )
    );
    assert!(rt;
        matches!(
            parse_line(Dialect::Cards, b"dato 0 65535"),
            Ok(Some(Act::Dato {
                address: 0,
                word: 65535
            }))
        )
    );
    assert!(rt;
        matches!(
            parse_line(Dialect::Cards, b"datob 9 255"),
            Ok(Some(Act::Datob {
                address: 9,
                byte: 255
            }))
        )
    );
}

// The banks of a map line, or none where it is no such line.
fn banks(dialect: Dialect, line: &[u8]) -> Option<BankList> {
    match parse_line(dialect, line) {
        Ok(Some(Act::Store(Make::Map { map, .. }))) => Some(map.banks),
        _ => None,
    }
}

#[test]
fn lists_of_banks(rt: HostRuntime) -> Result<(), Fail> {
    for dialect in DIALECTS {
        let one = banks(dialect, b"store map 9 8 7 6").ok_or("no map")?;
        assert_eq!(rt; one.used, 1);
        let bank = Bank {
            offset: 7,
            length: 6,
        };
        assert_eq!(rt; one.banks[0], bank);
        let none = Bank {
            offset: 0,
            length: 0,
        };
        assert_eq!(rt; one.banks[1], none);
        let nine = banks(
            dialect,
            b"store map 9 9 1 1 2 1 3 1 4 1 5 1 6 1 7 1 8 1 9 1",
        )
        .ok_or("no map")?;
        assert_eq!(rt; nine.used, 9);
        assert_eq!(rt; nine.banks[8].offset, 9);
        let ten = banks(
            dialect,
            b"store map 9 9 1 1 2 1 3 1 4 1 5 1 6 1 7 1 8 1 9 1 10 1",
        )
        .ok_or("no map")?;
        assert_eq!(rt; ten.used, 9);
        assert_eq!(rt; ten.banks[8].offset, 9);
    }
    Ok(())
}

#[test]
fn mistakes_of_stores(rt: HostRuntime) {
    for dialect in DIALECTS {
        let number = Expected::Number { most: 4294967295 };
        assert_eq!(rt; mistake(dialect, b"store"), ended(Expected::Make));
        assert_eq!(rt;
            mistake(dialect, b"store Flat 1"),
            wrong(Expected::Make, b"Flat")
        );
        assert_eq!(rt;
            mistake(dialect, b"store flat 4294967296"),
            wrong(number, b"4294967296")
        );
        assert_eq!(rt;
            mistake(dialect, b"store flat 1 2"),
            wrong(Expected::End, b"2")
        );
        assert_eq!(rt;
            mistake(dialect, b"store map 1 2 3 x y"),
            wrong(number, b"x")
        );
        assert_eq!(rt; mistake(dialect, b"store map 1 2 3"), ended(number));
        assert_eq!(rt;
            mistake(
                dialect,
                b"store map 1 1 1 1 1 1 1 1 1 1 1 1 1 1 1 1 1 1 1 1 1 x"
            ),
            wrong(number, b"x")
        );
        assert_eq!(rt; mistake(dialect, b"strike 1"), ended(number));
        assert_eq!(rt; mistake(dialect, b"cell 1 2"), wrong(Expected::End, b"2"));
    }
}

#[test]
fn mistakes(rt: HostRuntime) {
    for dialect in DIALECTS {
        let word = Expected::Number { most: 65535 };
        assert_eq!(rt;
            mistake(dialect, b"Code am2960"),
            wrong(Expected::Act(dialect), b"Code")
        );
        assert_eq!(rt;
            mistake(dialect, b"code am2961 x"),
            wrong(Expected::CodeName, b"am2961")
        );
        assert_eq!(rt;
            mistake(dialect, b"code # am2960"),
            ended(Expected::CodeName)
        );
        assert_eq!(rt; mistake(dialect, b"checks 65536"), wrong(word, b"65536"));
        assert_eq!(rt; mistake(dialect, b"judge"), ended(word));
        assert_eq!(rt;
            mistake(dialect, b"judge 1 64"),
            wrong(Expected::Number { most: 63 }, b"64")
        );
        assert_eq!(rt;
            mistake(dialect, b"checks 1 \xc3\xa9 2"),
            wrong(Expected::End, b"\xc3\xa9")
        );
    }
}

#[test]
fn mistakes_of_cards(rt: HostRuntime) {
    let word = Expected::Number { most: 65535 };
    assert_eq!(rt;
        mistake(Dialect::Cards, b"dato 0 65536"),
        wrong(word, b"65536")
    );
    assert_eq!(rt;
        mistake(Dialect::Cards, b"datob 0 256"),
        wrong(Expected::Number { most: 255 }, b"256")
    );
    assert_eq!(rt;
        mistake(Dialect::Cards, b"place 8192 0 0 0"),
        wrong(Expected::End, b"0")
    );
    for line in [
        b"place 8192 0 0".as_slice(),
        b"dati 0",
        b"datip 0",
        b"dato 0 0",
        b"datob 0 0",
    ] {
        let keyword = Words::new(line).next().unwrap_or(b"");
        assert_eq!(rt;
            mistake(Dialect::Stores, line),
            wrong(Expected::Act(Dialect::Stores), keyword)
        );
    }
}

#[test]
fn texts(rt: HostRuntime) -> Result<(), Fail> {
    let heap = rt.alloc();
    let found = Wrong {
        expected: Expected::Number { most: 63 },
        found: Some(b"a\\\xff\x07~"),
    };
    let text = wrong_text(heap, 18446744073709551615, &found)?;
    assert!(rt;
        text.as_str()
            == "line 18446744073709551615: expected a number at most 63, found a\\x5c\\xff\\x07~"
    );
    let acts = [
        (
            Dialect::Stores,
            "code, store, checks, judge, strike or cell",
        ),
        (
            Dialect::Cards,
            "code, store, place, checks, judge, dati, datip, dato, datob, strike or cell",
        ),
    ];
    for (dialect, words) in acts {
        let ended = wrong_text(
            heap,
            1,
            &Wrong {
                expected: Expected::Act(dialect),
                found: None,
            },
        )?;
        let text = format!(in heap; "line 1: expected {words}, found the end of the line")?;
        assert!(rt; ended.as_str() == text.as_str());
    }
    Ok(())
}
