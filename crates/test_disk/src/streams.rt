use std::io;
use std::io::{ErrorKind, Read, Write};
use std::test::Fail;
use td_io::*;

#[test]
fn a_source_in_memory_fails_at_the_listed_call(rt: HostRuntime) -> Result<(), Fail> {
    let mut source = MemSource::new(rt.alloc(), b"abc", &[2])?;
    for (answer, piece) in [
        (Ok(2), b"ab".as_slice()),
        (Err(Failed), b"".as_slice()),
        (Ok(1), b"c".as_slice()),
        (Ok(0), b"".as_slice()),
    ] {
        let mut buf = [0; 2];
        assert_eq!(rt; source.take(&mut buf), answer);
        assert_eq!(rt; buf.get(..piece.len()), Some(piece));
    }
    Ok(())
}

#[test]
fn a_sink_in_memory_fails_at_the_listed_call_and_where_it_is_full(
    rt: HostRuntime,
) -> Result<(), Fail> {
    let mut sink = MemSink::new(rt.alloc(), 2, &[2])?;
    for (piece, answer) in [
        (b"a", Ok(1)),
        (b"b", Err(Failed)),
        (b"c", Ok(1)),
        (b"d", Err(Failed)),
    ] {
        assert_eq!(rt; sink.put(piece), answer, "at {piece:?}");
    }
    assert_eq!(rt; sink.held(), b"ac".as_slice());
    Ok(())
}

#[test]
fn a_source_is_read_whole_up_to_the_limit(rt: HostRuntime) -> Result<(), Fail> {
    for (most, answer) in [(3, Ok(b"abc".as_slice())), (2, Err(ReadFault::TooLong))] {
        let mut source = MemSource::new(rt.alloc(), b"abc", &[])?;
        let bytes = read_all(rt.alloc(), &mut source, most);
        assert_eq!(rt;
            bytes.as_ref().map(|b| b.as_slice()).map_err(|fault| *fault),
            answer
        );
    }
    Ok(())
}

#[test]
fn pieces_of_one_byte_give_the_same_bytes(rt: HostRuntime) -> Result<(), Fail> {
    let mut source = MemSource::pieces(rt.alloc(), b"abc", 1, &[])?;
    let mut sink = MemSink::pieces(rt.alloc(), 3, 1, &[])?;
    let bytes = read_all(rt.alloc(), &mut source, 3)?;
    assert_eq!(rt; put_all(&mut sink, bytes.as_slice()), Ok(()));
    assert_eq!(rt; sink.held(), b"abc".as_slice());
    Ok(())
}

// a reader and a writer that fail
#[derive(Drop)]
struct Broken;

impl Read for Broken {
    fn read(&mut self, _buf: &mut [u8]) -> io::Result<usize> {
        Err(io::Error::from(ErrorKind::Other))
    }
}

impl Write for Broken {
    fn write(&mut self, _buf: &[u8]) -> io::Result<usize> {
        Err(io::Error::from(ErrorKind::Other))
    }

    fn flush(&mut self) -> io::Result<()> {
        Ok(())
    }
}

#[test]
fn a_reader_is_read_to_its_end_or_its_fault(rt: HostRuntime) -> Result<(), Fail> {
    let mut source = ReadSource::new(b"abc".as_slice());
    let bytes = read_all(rt.alloc(), &mut source, 3)?;
    assert_eq!(rt; bytes.as_slice(), b"abc".as_slice());
    let mut source = ReadSource::new(b"abc".as_slice().chain(Broken));
    assert_eq!(rt;
        read_all(rt.alloc(), &mut source, 3).err(),
        Some(ReadFault::Failed)
    );
    Ok(())
}

#[test]
fn a_writer_takes_the_bytes_or_fails(rt: HostRuntime) {
    let mut page = [0; 3];
    let mut sink = WriteSink::new(page.as_mut_slice());
    assert_eq!(rt; put_all(&mut sink, b"abc"), Ok(()));
    assert_eq!(rt; sink.put(b"d"), Err(Failed));
    drop(sink);
    assert_eq!(rt; page.as_slice(), b"abc".as_slice());
    assert_eq!(rt; WriteSink::new(Broken).put(b"a"), Err(Failed));
}
