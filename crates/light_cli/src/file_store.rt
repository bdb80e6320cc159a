// A store over real files. It tells nothing of them.
ghost use Rattle.std.specs.Prelude.{◌≡◌, ◌≤◌, ◌<◌, ◌^◌, length, IfOk, IfErr, IfSome, ◌+◌};
ghost use Rattle.light_cli.specs.Reading.{ReadFails};
ghost use Rattle.light_cli.specs.Telling.{untold_files};

use crate::saving::save_file;
use light_base::{Store, StoreFault};
use std::alloc::Global;
use std::fs;
use std::io::{ErrorKind, Read};
use std::rt::Files;

/// Files of the system, by their paths. Each failure is counted. A save takes memory of its own.
#[derive(Drop)]
pub struct FileStore<'a, R> {
    rt: &'a R,
    alloc: Global,
    faults: u64,
    ghost counted: { faults < 2 ^ 64 },
}

impl<'a, R: Files> FileStore<'a, R> {
    /// The files of this system, with no fault so far.
    pub fn new(rt: &'a R, alloc: Global) -> Self
        ensures { result.faults ≡ 0 }
    {
        FileStore {
            rt,
            alloc,
            faults: 0,
        }
    }
}

/// All that a reader has left, where that is at most `cap` bytes. A read that a signal stopped is asked again.
pub fn read_all<F: Read>(alloc: Global, file: &mut F, cap: u64) -> Result<Vec<u8>, StoreFault>
    ensures all { IfOk result (λ bytes. IfSome (F.remaining file.old) (λ left. bytes.items ≡ left)) }
    ensures fits { IfOk result (λ bytes. length bytes.items ≤ cap) }
    ensures cause { IfErr result (ReadFails (F.remaining file.old) cap) }
{
    let mut bytes = Vec::new(alloc);
    let mut piece = [0u8; 4096];
    for _ in 0..u64::MAX {
        match file.read(&mut piece) {
            Ok(0) => return Ok(bytes),
            Ok(count) => {
                if (bytes.len() + count) as u64 > cap {
                    return Err(StoreFault::TooLong { taken: cap + 1 });
                }
                if bytes.extend_from_slice(&piece[..count]).is_err() {
                    return Err(StoreFault::Memory);
                }
            }
            Err(error) => {
                if error.kind() != ErrorKind::Interrupted {
                    return Err(StoreFault::Failed);
                }
            }
        }
    }
    Err(StoreFault::Failed)
}

impl<R: Files> Store for FileStore<'_, R> {
    ghost told = { λ s. untold_files s.faults };

    fn load(&mut self, alloc: Global, name: &str, cap: u64) -> Result<Vec<u8>, StoreFault> {
        let outcome = match fs::open(self.rt, name) {
            Ok(mut file) => read_all(alloc, &mut file, cap),
            Err(_) => Err(StoreFault::Failed),
        };
        match outcome {
            Ok(bytes) => Ok(bytes),
            Err(StoreFault::Failed) => {
                self.faults = self.faults.saturating_add(1);
                Err(StoreFault::Failed)
            }
            Err(fault) => Err(fault),
        }
    }

    fn save(&mut self, name: &str, bytes: &[u8]) -> Result<(), StoreFault> {
        match save_file(self.alloc, self.rt, name, bytes) {
            Ok(()) => Ok(()),
            Err(StoreFault::Memory) => Err(StoreFault::Memory),
            Err(_) => {
                self.faults = self.faults.saturating_add(1);
                Err(StoreFault::Failed)
            }
        }
    }
}
