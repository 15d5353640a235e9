ghost use Rattle.std.specs.Prelude.{◌≡◌, None};
ghost use Rattle.kk_base.specs.Sink.{CutWithin, put_failed};

use kk_base::{FaultCount, Put, Sink};
use std::io::Write;

/// A stream that is written, such as standard output.
#[derive(Drop)]
pub struct StreamSink<W: Drop> {
    stream: W,
    faults: FaultCount,
}

impl<W: Write + Drop> StreamSink<W> {
    /// Writes on at the place where the stream stands.
    pub fn new(stream: W) -> Self
        ensures { result.faults ≡ 0 }
    {
        StreamSink {
            stream,
            faults: FaultCount::new(),
        }
    }
}

impl<W: Write + Drop> Sink for StreamSink<W> {
    ghost state = { λ sink. record { held = None; faults = sink.faults } };

    fn put(&mut self, piece: &[u8]) -> Put {
        let put = write_piece(&mut self.stream, piece);
        self.faults.count_call(is_failed(put));
        put
    }
}

fn is_failed(put: Put) -> bool
    ensures { result ≡ put_failed put }
{
    match put {
        Put::All => false,
        Put::Failed(_) => true,
    }
}

/// Writes a piece, up to the first write that fails or takes nothing.
fn write_piece<W: Write>(stream: &mut W, piece: &[u8]) -> Put
    ensures { CutWithin result piece.now }
{
    let mut done = 0;
    while done < piece.len() {
        match stream.write(&piece[done..]) {
            Ok(0) | Err(_) => return Put::Failed(done),
            Ok(count) => done += count,
        }
    }
    Put::All
}
