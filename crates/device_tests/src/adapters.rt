//! A source over a stream that fails on its way. All else of the devices is tried on the built program.

use kk_base::{Next, Source};
use kk_host::StreamSource;
use std::io;
use std::io::{ErrorKind, Read};

/// A stream that gives two bytes, and then fails.
#[derive(Drop)]
struct Broken {
    calls: u8,
}

impl Read for Broken {
    fn read(&mut self, buf: &mut [u8]) -> io::Result<usize> {
        self.calls = self.calls.saturating_add(1);
        if self.calls > 2 || buf.is_empty() {
            return Err(io::Error::from(ErrorKind::BrokenPipe));
        }
        buf[0] = self.calls;
        Ok(1)
    }
}

#[test]
fn a_source_gives_bytes_and_tells_a_fault(rt: HostRuntime) {
    let mut broken = StreamSource::new(Broken { calls: 0 });
    for answer in [Next::Byte(1), Next::Byte(2), Next::Failed, Next::Failed] {
        let next = broken.next();
        assert_eq!(rt; next, answer);
    }
}
