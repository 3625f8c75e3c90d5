// Ends of lines, and numbers at their limits.
use lines::{line_content, number};

#[test]
fn limits(rt: HostRuntime) {
    assert_eq!(rt; number(b"4294967295", u32::MAX), Some(4294967295));
    assert_eq!(rt; number(b"4294967296", u32::MAX), None);
    assert_eq!(rt; number(b"99999999999999999999", u32::MAX), None);
    assert_eq!(rt; number(b"00000000000000000000007", 7), Some(7));
    assert_eq!(rt; number(b"0o18", u32::MAX), None);
    assert_eq!(rt; number(b"0o", u32::MAX), None);
    assert_eq!(rt; number(b"+1", u32::MAX), None);
}

#[test]
fn ends_of_lines(rt: HostRuntime) {
    for line in [b"a".as_slice(), b"a\n", b"a\r\n"] {
        assert_eq!(rt; line_content(line), b"a".as_slice());
    }
    for line in [b"".as_slice(), b"\n", b"\r\n"] {
        assert_eq!(rt; line_content(line), b"".as_slice());
    }
    assert_eq!(rt; line_content(b"a\n\r"), b"a\n\r".as_slice());
}
