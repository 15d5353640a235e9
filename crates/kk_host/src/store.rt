ghost use Rattle.std.specs.Prelude.{◌≡◌, None};
ghost use Rattle.kk_base.specs.Faults.{Counts};
ghost use Rattle.kk_base.specs.Store.{Remembers, read_failed, wrote_failed};

use kk_base::{Bytes, FaultCount, Name, Read, Store, StoreCall, Wrote};
use std::alloc::Global;
use std::fs::{File, Files};
use std::io;
use std::io::{ErrorKind, Write};

/// The files of the system.
#[derive(Drop)]
pub struct FileStore<R: Drop> {
    alloc: Global,
    files: R,
    faults: FaultCount,
    last_failed: Option<StoreCall>,
}

impl<R: Files + Drop> FileStore<R> {
    /// The files that `files` reaches.
    pub fn new(alloc: Global, files: R) -> Self
        ensures faults { result.faults ≡ 0 }
        ensures last_failed { result.last_failed ≡ None }
    {
        FileStore {
            alloc,
            files,
            faults: FaultCount::new(),
            last_failed: None,
        }
    }

    /// Counts a call, and keeps it where it failed.
    fn note(&mut self, failed: bool, call: StoreCall)
        ensures faults { Counts failed self.old.faults self.new.faults }
        ensures last_failed { Remembers failed call self.old.last_failed self.new.last_failed }
    {
        self.faults.count_call(failed);
        if failed {
            self.last_failed = Some(call);
        }
    }
}

/// The first `at_most` bytes of a file, all if there are fewer.
fn read_file<R: Files>(
    alloc: Global,
    files: &R,
    name: &str,
    at_most: usize,
) -> io::Result<Vec<u8>> {
    let mut file = File::open(files, name)?;
    let mut bytes = Vec::new(alloc);
    let mut chunk = [0; 4096];
    while bytes.len() < at_most {
        let room = chunk.len().min(at_most - bytes.len());
        let count = io::Read::read(&mut file, &mut chunk[..room])?;
        if count == 0 {
            break;
        }
        bytes.extend_from_slice(&chunk[..count])?;
    }
    Ok(bytes)
}

/// Makes a file these bytes.
fn write_file<R: Files>(files: &R, name: &str, bytes: &[u8]) -> io::Result<()> {
    let mut file = File::create(files, name)?;
    let mut done = 0;
    while done < bytes.len() {
        let count = file.write(&bytes[done..])?;
        if count == 0 {
            return Err(io::Error::from(ErrorKind::WriteZero));
        }
        done += count;
    }
    Ok(())
}

impl<R: Files + Drop> Store for FileStore<R> {
    ghost state = { λ store. record { files = None; last_failed = store.last_failed; faults = store.faults } };

    fn read(&mut self, alloc: Global, name: &str, at_most: usize) -> Read {
        // The name is kept where the call fails, so its room is taken before.
        let Ok(kept) = String::from_str(self.alloc, name) else {
            self.faults.count_call(false);
            return Read::NoMemory;
        };
        let read = match read_file(alloc, &self.files, name, at_most) {
            Ok(bytes) => Read::Bytes(Bytes::from_vec(bytes)),
            Err(error) if error.kind() == ErrorKind::OutOfMemory => Read::NoMemory,
            Err(_) => Read::Failed,
        };
        self.note(is_read_failed(&read), StoreCall::Reading(Name::new(kept)));
        read
    }

    fn write(&mut self, name: &str, bytes: &[u8]) -> Wrote {
        let Ok(kept) = String::from_str(self.alloc, name) else {
            self.faults.count_call(false);
            return Wrote::NoMemory;
        };
        let wrote = match write_file(&self.files, name, bytes) {
            Ok(()) => Wrote::Done,
            Err(error) if error.kind() == ErrorKind::OutOfMemory => Wrote::NoMemory,
            Err(_) => Wrote::Failed,
        };
        self.note(is_write_failed(wrote), StoreCall::Writing(Name::new(kept)));
        wrote
    }
}

fn is_read_failed(read: &Read) -> bool
    ensures { result ≡ read_failed read.now }
{
    match read {
        Read::Bytes(_) | Read::NoMemory => false,
        Read::Failed => true,
    }
}

fn is_write_failed(wrote: Wrote) -> bool
    ensures { result ≡ wrote_failed wrote }
{
    match wrote {
        Wrote::Done | Wrote::NoMemory => false,
        Wrote::Failed => true,
    }
}
