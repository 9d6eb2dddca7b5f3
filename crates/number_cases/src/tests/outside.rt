//! Sources and sinks over readers and writers of std: no clause says which bytes they pass on.

use src_sink::{ReadEnd, StdSink, StdSource, WriteFault, read_all, write_all};
use std::test::Fail;

const TEXT: &[u8] = b"report 1\n";

#[test]
fn bytes_go_through(rt: HostRuntime) -> Result<(), Fail> {
    let mut from = StdSource::over(TEXT);
    let all = read_all(rt.alloc(), &mut from, 9)?;
    assert_eq!(rt; all.as_slice(), TEXT);

    let mut written = Vec::new(rt.alloc());
    let mut to = StdSink::over(&mut written);
    assert_eq!(rt; write_all(&mut to, TEXT), Ok(()));
    drop(to);
    assert_eq!(rt; written.as_slice(), TEXT);
    Ok(())
}

#[test]
fn what_is_missing_or_full_fails(rt: HostRuntime) {
    let mut from = StdSource::<&[u8]>::missing();
    assert_eq!(rt;
        read_all(rt.alloc(), &mut from, 9).err(),
        Some(ReadEnd::Fault)
    );

    let mut to = StdSink::<Vec<u8>>::missing();
    assert_eq!(rt; write_all(&mut to, TEXT), Err(WriteFault { sent: 0 }));

    // A writer that takes nothing more.
    let mut room = [0; 4];
    let mut full = StdSink::over(room.as_mut_slice());
    assert_eq!(rt; write_all(&mut full, TEXT), Err(WriteFault { sent: 4 }));
}
