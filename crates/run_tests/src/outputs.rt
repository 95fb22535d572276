//! The bytes that commands have written and that were not handed on.

use mutator::Output;
use std::test::Fail;

#[test]
fn an_output_keeps_its_bytes_in_order_until_it_is_cleared(rt: HostRuntime) -> Result<(), Fail> {
    let mut out = Output::new(rt.alloc())?;
    out.put(b"one ");
    out.put(b"two");
    assert_eq!(rt; out.bytes(), b"one two".as_slice());
    assert_eq!(rt; out.room(), 65_529);
    out.clear();
    assert_eq!(rt; out.room(), 65_536);
    Ok(())
}
