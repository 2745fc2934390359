use std::io::{self, ErrorKind, Read, Write};
use std::test::Fail;
use xl_io::{Failed, Piece, Sink, Source, StdSink, StdSource, Wrote, write_all};

#[test]
fn a_reader_is_read_to_its_end(rt: HostRuntime) -> Result<(), Fail> {
    let mut source = StdSource::new(b"abc".as_slice());
    let mut room = [0; 2];
    assert!(rt; source.read(&mut room) == Piece::Got(2));
    assert_eq!(rt; room, *b"ab");
    assert!(rt; source.read(&mut room) == Piece::Got(1));
    assert_eq!(rt; room, *b"cb");
    assert!(rt; source.read(&mut room) == Piece::End);
    Ok(())
}

#[test]
fn a_full_writer_is_a_fault(rt: HostRuntime) -> Result<(), Fail> {
    let mut room = [0; 4];
    let mut sink = StdSink::new(room.as_mut_slice());
    assert!(rt; write_all(&mut sink, b"abc") == Ok(()));
    assert!(rt; sink.write(b"de") == Wrote::Took(1));
    assert!(rt; sink.write(b"e") == Wrote::Failed);
    assert!(rt; write_all(&mut sink, b"e") == Err(Failed));
    Ok(())
}

/// A stream whose first call is interrupted.
#[derive(Drop)]
struct Interrupted<T> {
    stream: T,
    called: bool,
}

impl<T> Interrupted<T> {
    fn turn(&mut self) -> io::Result<()> {
        if self.called {
            return Ok(());
        }
        self.called = true;
        Err(io::Error::from(ErrorKind::Interrupted))
    }
}

impl<T: Read> Read for Interrupted<T> {
    fn read(&mut self, buf: &mut [u8]) -> io::Result<usize> {
        self.turn()?;
        self.stream.read(buf)
    }
}

impl<T: Write> Write for Interrupted<T> {
    fn write(&mut self, buf: &[u8]) -> io::Result<usize> {
        self.turn()?;
        self.stream.write(buf)
    }

    fn flush(&mut self) -> io::Result<()> {
        self.stream.flush()
    }
}

#[test]
fn interrupted_calls_are_made_again(rt: HostRuntime) {
    let mut room = [0; 4];
    let mut source = StdSource::new(Interrupted {
        stream: b"abc".as_slice(),
        called: false,
    });
    assert!(rt; source.read(&mut room) == Piece::Got(3));
    let mut sink = StdSink::new(Interrupted {
        stream: room.as_mut_slice(),
        called: false,
    });
    assert!(rt; sink.write(b"de") == Wrote::Took(2));
}
