//! What no clause says: streams of the standard library that fail.
ghost use Rattle.std.specs.Prelude.{◌≡◌, IfOk};

use super::*;
use std::io::{self, ErrorKind, Read, Write};
use std::test::Fail;

// A stream of the standard library that fails at its first call, and would go on at the next.
#[derive(Drop)]
struct FailsOnce {
    has_failed: bool,
    kind: ErrorKind,
}

impl FailsOnce {
    fn new(kind: ErrorKind) -> FailsOnce {
        FailsOnce {
            has_failed: false,
            kind,
        }
    }

    fn answer(&mut self, size: usize) -> io::Result<usize>
        ensures { IfOk result (λ n. n ≡ size) }
    {
        if self.has_failed {
            return Ok(size);
        }
        self.has_failed = true;
        Err(io::Error::from(self.kind))
    }
}

impl Read for FailsOnce {
    fn read(&mut self, buf: &mut [u8]) -> io::Result<usize> {
        self.answer(buf.len())
    }
}

impl Write for FailsOnce {
    fn write(&mut self, piece: &[u8]) -> io::Result<usize> {
        self.answer(piece.len())
    }

    fn flush(&mut self) -> io::Result<()> {
        Ok(())
    }
}

#[test]
fn an_error_of_the_standard_library_is_one_fault(rt: HostRuntime) -> Result<(), Fail> {
    for kind in [
        ErrorKind::Interrupted,
        ErrorKind::WouldBlock,
        ErrorKind::Other,
    ] {
        let mut source = StdSource::new(FailsOnce::new(kind));
        assert_eq!(rt; source.read(&mut [0; 4]), Err(Failed));
        assert_eq!(rt; source.faults, 1);
        assert_eq!(rt; source.read(&mut [0; 4]), Ok(4));
        assert_eq!(rt; source.faults, 1);

        let mut sink = StdSink::new(FailsOnce::new(kind));
        assert_eq!(rt; sink.write(b"abcd"), Err(Failed));
        assert_eq!(rt; sink.faults, 1);
        assert_eq!(rt; sink.write(b"abcd"), Ok(4));
        assert_eq!(rt; sink.faults, 1);
    }
    Ok(())
}
