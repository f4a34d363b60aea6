use lines::{numbers, split_line};

// Lines that hold two numbers, and lines that do not.
#[test]
fn two_numbers(rt: HostRuntime) {
    assert_eq!(rt; numbers::<2>(b"12 1"), Some([12, 1]));
    assert_eq!(rt; numbers::<2>(b"0 000000007"), Some([0, 7]));
    assert_eq!(rt; numbers::<2>(b"999999999 0"), Some([999999999, 0]));
    assert_eq!(rt; numbers::<2>(b""), None);
    assert_eq!(rt; numbers::<2>(b"12"), None);
    assert_eq!(rt; numbers::<2>(b"12 "), None);
    assert_eq!(rt; numbers::<2>(b" 12 1"), None);
    assert_eq!(rt; numbers::<2>(b"12  1"), None);
    assert_eq!(rt; numbers::<2>(b"12 1 "), None);
    assert_eq!(rt; numbers::<2>(b"12 1\r"), None);
    assert_eq!(rt; numbers::<2>(b"12\t1"), None);
    assert_eq!(rt; numbers::<2>(b"12 1 3"), None);
    assert_eq!(rt; numbers::<2>(b"1000000000 1"), None);
    assert_eq!(rt; numbers::<2>(b"12 0000000001"), None);
    assert_eq!(rt; numbers::<2>(b"12 -1"), None);
}

#[test]
fn first_lines(rt: HostRuntime) {
    let (line, rest) = split_line(b"12 1\n\nx");
    assert_eq!(rt; line, b"12 1".as_slice());
    assert_eq!(rt; rest, b"\nx".as_slice());
    let (line, rest) = split_line(rest);
    assert_eq!(rt; line, b"".as_slice());
    assert_eq!(rt; rest, b"x".as_slice());
    let (line, rest) = split_line(rest);
    assert_eq!(rt; line, b"x".as_slice());
    assert!(rt; rest.is_empty());
}
