// A store in memory. The calls of `load` and `save` are numbered together, from 1, and those whose number is in
// a list fail.
ghost use Rattle.std.specs.Prelude.{◌≡◌, ◌<◌, ◌^◌, true, false, OnOk, OnErr, IsErrOf, option_copied};
ghost use Rattle.std.specs.FinMap.{get, insert};
ghost use Rattle.light_base.specs.FileMap.{files_of};
ghost use Rattle.light_base.specs.Stores.{Loaded, Saved};
ghost use Rattle.light_base.specs.Answered.{has_failed, is_too_long};
ghost use Rattle.light_base.specs.InMemory.{is_failing, empty_store, store_told};
ghost use Rattle.light_base.specs.Loading.{called, load_fails, load_too_long};
ghost use Rattle.light_base.specs.Saving.{store_after, with_file};

use crate::{Memory, Store, StoreFault};
use std::alloc::Global;
use std::collections::BTreeMap;
use std::marker::Model;

/// A store in memory, which tells its files, and is sound exactly where no call is to fail.
///
/// Its calls of `load` and `save` are numbered together, from 1. The numbers stop at 2^64 - 1, which all later calls
/// have. A call counts a fault and answers `Failed` exactly where its number is among those that fail, or it loads a
/// name that isn't there. A failing save leaves the first half of the bytes, rounded down, under the name; where there
/// is no memory for that, it answers `Memory`, counts no fault, and leaves the files as they were.
#[derive(Debug, Drop)]
pub struct MemStore {
    alloc: Global,
    files: BTreeMap<String, Vec<u8>>,
    fail: Vec<u64>,
    calls: u64,
    faults: u64,
}

impl Model for MemStore {
    ghost use Rattle.std.specs.Prelude.{◌<◌, ◌^◌};
    ghost use Rattle.light_base.specs.FileMap.{files_of};
    ghost use Rattle.light_base.specs.InMemory.{StoreState, store_code};

    ghost Value = { StoreState };

    ghost coded = { store_code };

    ghost view = { λ s. record { files = files_of s.files; fail = s.fail.items; calls = s.calls; faults = s.faults } };

    ghost invariant = { λ s. s.faults < 2 ^ 64 };
}

// The bytes of a file.
fn file_of<'a>(files: &'a BTreeMap<String, Vec<u8>>, name: &str) -> Option<&'a [u8]>
    ensures { option_copied result ≡ get (files_of files.now) name.now }
{
    match files.get(name) {
        Some(bytes) => Some(bytes.as_slice()),
        None => None,
    }
}

// Gives a file these bytes.
fn keep(
    alloc: Global,
    files: &mut BTreeMap<String, Vec<u8>>,
    name: &str,
    bytes: &[u8],
) -> Result<(), Memory>
    ensures ok { OnOk result (files_of files.new ≡ insert (files_of files.old) name.now bytes.now) }
    ensures err { OnErr result (files_of files.new ≡ files_of files.old) }
{
    let key = String::from_str(alloc, name)?;
    let value = Vec::from_slice(alloc, bytes)?;
    files.insert(key, value)?;
    Ok(())
}

impl MemStore {
    /// An empty store whose calls of these numbers fail.
    pub fn new(alloc: Global, fail: Vec<u64>) -> Self
        ensures { result ≡ empty_store fail.items }
    {
        MemStore {
            alloc,
            files: BTreeMap::new(alloc),
            fail,
            calls: 0,
            faults: 0,
        }
    }

    /// Sets a file. It is no numbered call. After `Memory` nothing changed.
    pub fn put_file(&mut self, name: &str, bytes: &[u8]) -> Result<(), Memory>
        ensures ok { OnOk result (self.new ≡ with_file self.old name.now bytes.now) }
        ensures err { OnErr result (self.new ≡ self.old) }
    {
        keep(self.alloc, &mut self.files, name, bytes)
    }

    /// The bytes of a file. None exactly where the name isn't there.
    pub fn file(&self, name: &str) -> Option<&[u8]>
        ensures { option_copied result ≡ get self.now.files name.now }
    {
        file_of(&self.files, name)
    }
}

impl Store for MemStore {
    ghost told = { store_told };

    fn load(&mut self, alloc: Global, name: &str, cap: u64) -> Result<Vec<u8>, StoreFault>
        ensures loaded { Loaded (store_told self.old) (store_told self.new) name.now cap result }
        ensures counted { self.new.faults < 2 ^ 64 }

        // It fails exactly where its number is among those that fail, or the name isn't there. Where it doesn't, it
        // answers that the file is too long exactly where it has more than `cap` bytes.
        ensures fails { has_failed result ≡ load_fails self.old name.now }
        ensures too_long { is_too_long result ≡ load_too_long self.old name.now cap }
        ensures after { self.new ≡ called self.old (load_fails self.old name.now) }
    {
        self.calls = self.calls.saturating_add(1);
        let fails = self.fail.contains(&self.calls);
        match file_of(&self.files, name) {
            Some(bytes) if !fails => {
                let taken = bytes.len() as u64;
                if taken > cap {
                    return Err(StoreFault::TooLong { taken: cap + 1 });
                }
                Ok(Vec::from_slice(alloc, bytes)?)
            }
            _ => {
                self.faults = self.faults.saturating_add(1);
                Err(StoreFault::Failed)
            }
        }
    }

    fn save(&mut self, name: &str, bytes: &[u8]) -> Result<(), StoreFault>
        ensures saved { Saved (store_told self.old) (store_told self.new) name.now bytes.now result }
        ensures counted { self.new.faults < 2 ^ 64 }

        // But for want of memory, it fails exactly where its number is among those that fail.
        ensures ok { OnOk result (is_failing self.old.fail self.old.calls ≡ false) }
        ensures fails { IsErrOf result StoreFault.Failed → is_failing self.old.fail self.old.calls ≡ true }
        ensures after { self.new ≡ store_after self.old name.now bytes.now result }
    {
        self.calls = self.calls.saturating_add(1);
        if self.fail.contains(&self.calls) {
            keep(self.alloc, &mut self.files, name, &bytes[..bytes.len() / 2])?;
            self.faults = self.faults.saturating_add(1);
            return Err(StoreFault::Failed);
        }
        keep(self.alloc, &mut self.files, name, bytes)?;
        Ok(())
    }
}
