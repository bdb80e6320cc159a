// Files that can be loaded and saved, whatever keeps them.
ghost use Rattle.std.specs.Prelude.{◌≡◌, ◌<◌, ◌^◌};
ghost use Rattle.light_base.specs.Stores.{StoreTold, Loaded, Saved};

use crate::Memory;
use std::alloc::{AllocError, Global};

/// Why a file was not loaded or not saved.
#[derive(Clone, Copy, Debug, PartialEq, Eq)]
pub enum StoreFault {
    /// The store counted a fault in this call.
    Failed,
    /// The file has more bytes than the load may take, of which `taken` were taken: one more than it may. No save
    /// answers this.
    TooLong { taken: u64 },
    /// A request for memory was refused.
    Memory,
}

impl From<AllocError> for StoreFault {
    ghost use Rattle.light_base.specs.declared.store.StoreFault.TheVariants.{Memory};

    ghost from_gives = { λ _ e. e ≡ Memory };

    fn from(_: AllocError) -> StoreFault {
        StoreFault::Memory
    }
}

impl From<Memory> for StoreFault {
    ghost use Rattle.light_base.specs.declared.store.StoreFault.TheVariants.{Memory};

    ghost from_gives = { λ _ e. e ≡ Memory };

    fn from(_: Memory) -> StoreFault {
        StoreFault::Memory
    }
}

/// Where files are loaded from and saved to.
///
/// Whether a store tells its files never changes, nor whether it is sound. A sound store that tells its files fails no
/// call but a load of a name that isn't there. A call counts one fault where it answers `Failed`, and no other answer
/// counts one. The count stands still at 2^64 - 1.
pub trait Store {
    /// What it tells of itself.
    ghost told: { Self → StoreTold };

    /// The whole bytes of a file, at most `cap` of them. The files stay as they are.
    ///
    /// Where a store that tells its files has more than `cap` bytes under that name, the answer is `TooLong`, or
    /// `Memory`, or, where the store isn't sound, `Failed`. Where it has no such name, the answer is `Failed` or
    /// `Memory`.
    fn load(&mut self, alloc: Global, name: &str, cap: u64) -> Result<Vec<u8>, StoreFault>
        ensures loaded { Loaded (told self.old) (told self.new) name.now cap result }
        ensures counted { (told self.new).faults < 2 ^ 64 };

    /// Gives a file these bytes, and leaves all others as they are. After `Failed` the file has any bytes, or isn't
    /// there; after `Memory` all files are as they were.
    ///
    /// A sound store that tells its files refuses nothing but for want of memory.
    fn save(&mut self, name: &str, bytes: &[u8]) -> Result<(), StoreFault>
        ensures saved { Saved (told self.old) (told self.new) name.now bytes.now result }
        ensures counted { (told self.new).faults < 2 ^ 64 };
}
