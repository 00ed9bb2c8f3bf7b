use crate::cut::{field, field_count};
use crate::fault::{FieldFault, FieldPlace};
use crate::labels::labels;
use crate::number::{leading_number, long_number, number};

// What is read of a set of labels, with the flags in place of the set.
fn flags(field: &[u8]) -> Result<[bool; 16], FieldFault> {
    labels(field, 1).map(|set| set.letters)
}

// The fault of a number in field 1 whose longest lawful beginning has this length.
fn no_number(length: usize) -> Result<u32, FieldFault> {
    Err(FieldFault::Number(FieldPlace { field: 1, length }))
}

// The fault of a set of labels in field 1 whose longest lawful beginning has this length.
fn no_flags(length: usize) -> Result<[bool; 16], FieldFault> {
    Err(FieldFault::Labels(FieldPlace { field: 1, length }))
}

#[test]
fn fields_of_a_line(rt: HostRuntime) {
    assert_eq!(rt; field_count(b"b\t0\t1"), 3);
    assert_eq!(rt; field_count(b""), 1);
    assert!(rt; field(b"b\t10\t1", 1) == b"10".as_slice());
    assert!(rt; field(b"b\t10\t1", 3) == b"".as_slice());
}

#[test]
fn numbers(rt: HostRuntime) {
    assert_eq!(rt; number(b"0", 1), Ok(0));
    assert_eq!(rt; number(b"9999999", 1), Ok(9_999_999));
    assert_eq!(rt; number(b"08", 1), no_number(1));
    assert_eq!(rt; number(b"12345678", 1), no_number(7));
    assert_eq!(rt; number(b"3x", 1), no_number(1));
    assert_eq!(rt; number(b"x", 1), no_number(0));
    assert_eq!(rt; number(b"", 1), no_number(0));
}

#[test]
fn long_numbers(rt: HostRuntime) {
    assert_eq!(rt; long_number(b"0"), Some(0));
    assert_eq!(rt; long_number(b"9999999999"), Some(9_999_999_999));
    assert_eq!(rt; long_number(b"12345678901"), None);
    assert_eq!(rt; long_number(b"01"), None);
    assert_eq!(rt; long_number(b"+1"), None);
    assert_eq!(rt; long_number(b"1,"), None);
    assert_eq!(rt; long_number(b""), None);
}

#[test]
fn leading_numbers(rt: HostRuntime) {
    assert_eq!(rt; leading_number(b"20b]"), Some((20, 2)));
    assert_eq!(rt; leading_number(b"08"), Some((0, 1)));
    assert_eq!(rt; leading_number(b"12345678901"), Some((1_234_567_890, 10)));
    assert_eq!(rt; leading_number(b"a1"), None);
    assert_eq!(rt; leading_number(b""), None);
}

#[test]
fn lawful_labels(rt: HostRuntime) {
    let mut ends = [false; 16];
    assert_eq!(rt; flags(b"-"), Ok(ends));
    ends[0] = true;
    ends[15] = true;
    assert_eq!(rt; flags(b"ap"), Ok(ends));
    assert_eq!(rt; flags(b"abcdefghijklmnop"), Ok([true; 16]));
}

#[test]
fn refused_labels(rt: HostRuntime) {
    assert_eq!(rt; flags(b""), no_flags(0));
    assert_eq!(rt; flags(b"q"), no_flags(0));
    assert_eq!(rt; flags(b"ba"), no_flags(1));
    assert_eq!(rt; flags(b"aa"), no_flags(1));
    assert_eq!(rt; flags(b"-a"), no_flags(1));
    assert_eq!(rt; flags(b"a-"), no_flags(1));
}
