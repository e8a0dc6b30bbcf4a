//! Names against texts written by hand.
use gs_made_names::made_name;
use std::test::*;

#[test]
fn both_numbers_are_written_in_decimal(rt: HostRuntime) -> Result<(), Fail> {
    let alloc = rt.alloc();
    let first = made_name(alloc, "http://localhost", 1, 0)?;
    let other = made_name(alloc, "http://[::1]:80", 120, 9)?;
    let last = made_name(alloc, "http://a", u64::MAX, u64::MAX)?;
    assert_eq!(rt;
        first.as_bytes(),
        b"http://localhost/graphs/n1-0".as_slice()
    );
    assert_eq!(rt;
        other.as_bytes(),
        b"http://[::1]:80/graphs/n120-9".as_slice()
    );
    assert_eq!(rt;
        last.as_bytes(),
        b"http://a/graphs/n18446744073709551615-18446744073709551615".as_slice()
    );
    Ok(())
}
