use ndc_port::{
    Failed, MemSink, MemSource, ReadError, Sink, Source, StdSink, StdSource, read_all, write_all,
};
use std::test::Fail;

#[test]
fn sources_over_memory(rt: HostRuntime) -> Result<(), Fail> {
    let alloc = rt.alloc();
    let mut source = MemSource::new(b"abcde".to_vec(alloc)?, vec![in alloc; 2]?);
    let mut four = [b'.'; 4];
    assert_eq!(rt; source.read(&mut four[..2]), Ok(2));
    assert_eq!(rt;
        source.read(&mut four),
        Err(Failed),
        "the second call is listed"
    );
    assert_eq!(rt; four, *b"ab..");
    assert_eq!(rt; source.read(&mut four), Ok(3));
    assert_eq!(rt; four, *b"cde.");
    assert_eq!(rt; source.read(&mut four), Ok(0), "at the end");
    Ok(())
}

#[test]
fn writing_whole(rt: HostRuntime) -> Result<(), Fail> {
    let alloc = rt.alloc();
    let mut sink = MemSink::new(alloc, 10, vec![in alloc; 2]?)?;
    assert_eq!(rt; write_all(&mut sink, b"first"), Ok(()));
    assert_eq!(rt;
        write_all(&mut sink, b"second"),
        Err(Failed),
        "the second call is listed"
    );
    assert_eq!(rt;
        write_all(&mut sink, b"3456789"),
        Err(Failed),
        "there is room for five"
    );
    assert_eq!(rt; sink.write(b""), Ok(0), "an empty piece needs no room");
    assert_eq!(rt; sink.bytes(), b"first34567".as_slice());
    Ok(())
}

#[test]
fn reading_whole(rt: HostRuntime) -> Result<(), Fail> {
    let alloc = rt.alloc();
    // How many bytes there are, the call that fails (0: none), and what is answered at a limit of 20,000.
    for (len, failing, want) in [
        (20_000, 0, Ok(20_000)),
        (20_001, 0, Err(ReadError::TooLong)),
        (20_000, 2, Err(ReadError::Fault)),
    ] {
        let mut source = MemSource::new(vec![in alloc; 7; len]?, vec![in alloc; failing]?);
        let got = read_all(alloc, &mut source, 20_000).map(|bytes| bytes.len());
        assert_eq!(rt; got, want, "{len} bytes, failing {failing}");
    }
    Ok(())
}

#[test]
fn standard_streams(rt: HostRuntime) -> Result<(), Fail> {
    assert_eq!(rt; StdSource::new(rt.stdin()).read(&mut []), Ok(0));
    assert_eq!(rt; StdSink::out(rt.stdout()).write(b""), Ok(0));
    assert_eq!(rt; StdSink::err(rt.stderr()).write(b""), Ok(0));
    let said = format!(in rt.alloc(); "{Failed}; {}", ReadError::TooLong)?;
    assert_eq!(rt;
        said.as_str(),
        "a read or a write failed; more bytes came than the limit allows"
    );
    Ok(())
}
