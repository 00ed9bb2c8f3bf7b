use crate::expand;
use std::test::Fail;

#[test]
fn texts_without_escapes_stay(rt: HostRuntime) -> Result<(), Fail> {
    let heap = rt.alloc();
    assert!(rt; expand(heap, "")?.as_slice() == b"".as_slice());
    assert!(rt; expand(heap, "a:b x")?.as_slice() == b"a:b x".as_slice());
    Ok(())
}

#[test]
fn escapes_are_bytes(rt: HostRuntime) -> Result<(), Fail> {
    let heap = rt.alloc();
    assert!(rt; expand(heap, "a\\tb\\r\\n")?.as_slice() == b"a\tb\r\n".as_slice());
    assert!(rt; expand(heap, "\\x41\\x0a\\x7b\\xff")?.as_slice() == b"A\n{\xff".as_slice());
    assert!(rt; expand(heap, "\\\\n")?.as_slice() == b"\n".as_slice());
    Ok(())
}

#[test]
fn repeats_are_written_out(rt: HostRuntime) -> Result<(), Fail> {
    let heap = rt.alloc();
    assert!(rt; expand(heap, "{5:x}")?.as_slice() == b"xxxxx".as_slice());
    assert!(rt;
        expand(heap, "a{2:\\n}b{0:c}{12:-}")?.as_slice() == b"a\n\nb------------".as_slice()
    );
    Ok(())
}

#[test]
fn malformed_escapes(rt: HostRuntime) -> Result<(), Fail> {
    let heap = rt.alloc();
    assert!(rt; expand(heap, "a\\")?.as_slice() == b"a".as_slice());
    assert!(rt; expand(heap, "\\q\\\"")?.as_slice() == b"q\"".as_slice());
    assert!(rt; expand(heap, "\\x\\x4")?.as_slice() == b"xx4".as_slice());
    assert!(rt; expand(heap, "\\x4g\\xAFz")?.as_slice() == b"@\x00z".as_slice());
    Ok(())
}

#[test]
fn malformed_repeats(rt: HostRuntime) -> Result<(), Fail> {
    let heap = rt.alloc();
    assert!(rt; expand(heap, "a{3:bc")?.as_slice() == b"a3:bc".as_slice());
    assert!(rt; expand(heap, "a{3}b")?.as_slice() == b"ab".as_slice());
    assert!(rt; expand(heap, "a}b")?.as_slice() == b"b".as_slice());
    assert!(rt; expand(heap, "2:a}b{1:c}")?.as_slice() == b"aabc".as_slice());
    assert!(rt; expand(heap, "{2:a{3:b}c}d")?.as_slice() == b"2:abbbc}d".as_slice());
    assert!(rt; expand(heap, "{2:a:b}\\{2:c}")?.as_slice() == b"a:ba:bcc".as_slice());
    Ok(())
}

#[test]
fn counts_are_decimal_numbers(rt: HostRuntime) -> Result<(), Fail> {
    let heap = rt.alloc();
    assert!(rt; expand(heap, "{x:a}{:b}{ 2:c}{2 :d}.")?.as_slice() == b".".as_slice());
    assert!(rt; expand(heap, "{-1:a}{+2:b}{++3:c}{+:d}.")?.as_slice() == b"bb.".as_slice());
    assert!(rt;
        expand(heap, "{4294967296:a}{99999999999999999999:b}.")?.as_slice() == b".".as_slice()
    );
    assert!(rt; expand(heap, "{0000000000003:a}.")?.as_slice() == b"aaa.".as_slice());
    Ok(())
}
