// How a file is saved: where that can be, a new file beside it takes its name, so that a save that fails leaves what was there.
ghost use Rattle.std.specs.Prelude.{◌≡◌, ◌⊎◌, ℕ, ◌<◌, IfOk, IfErr, OnOk};
ghost use Rattle.std.specs.Io.KnownBytes.{Appends};
ghost use Rattle.std.specs.Path.{path_buf_bytes};
ghost use Rattle.light_cli.specs.Saving.{IsWay, name_beside, cause_of};

use light_base::StoreFault;
use std::alloc::{AllocError, Global};
use std::fs::{self, Metadata, OpenFile, OpenOptions};
use std::io::{self, ErrorKind, Write};
use std::os::unix::fs::{MetadataExt, lchown};
use std::path::{Path, PathBuf};
use std::rt::Files;

/// How a file is saved.
#[derive(Drop)]
pub enum Way {
    /// A new file gets its free name.
    Create,
    /// A new file gets its name, its owner and its permissions.
    Replace(Metadata),
    /// The bytes are written into itself.
    Overwrite,
}

/// Why a file was not replaced. It stands as it was, and nothing stands beside it.
#[derive(Clone, Copy, Debug, PartialEq, Eq)]
pub enum Unreplaced {
    /// It may be written, but its folder or its file system bars that it is replaced.
    Barred,
    /// The system failed.
    Failed,
    /// A request for memory was refused.
    Memory,
}

/// The way to save a file, by what is found under its name, no link being followed.
pub fn way_of(found: io::Result<Metadata>) -> Way
    ensures { IsWay found result }
{
    match found {
        Ok(old) => {
            if old.is_file() {
                Way::Replace(old)
            } else {
                Way::Overwrite
            }
        }
        Err(error) => match error.kind() {
            ErrorKind::NotFound => Way::Create,
            _ => Way::Overwrite,
        },
    }
}

/// Why a file was not replaced, where a step ended with this error.
pub fn cause_of(error: &io::Error) -> Unreplaced
    ensures { result ≡ cause_of error.now }
{
    match error.kind() {
        ErrorKind::PermissionDenied => Unreplaced::Barred,
        ErrorKind::ReadOnlyFilesystem => Unreplaced::Barred,
        ErrorKind::ResourceBusy => Unreplaced::Barred,
        _ => Unreplaced::Failed,
    }
}

/// The path of a name beside a file.
pub fn path_beside(alloc: Global, name: &str, number: u16) -> Result<PathBuf, AllocError>
    ensures { IfOk result (λ path. path_buf_bytes path ≡ name_beside name.now number) }
{
    let text = format!(in alloc; "light-{number}.tmp")?;
    Path::new(name).with_file_name(alloc, text.as_str())
}

/// Writes all the bytes.
pub fn write_whole<W: Write>(file: &mut W, bytes: &[u8]) -> Result<(), StoreFault>
    ensures written { OnOk result (Appends (W.contents file.old) (W.contents file.new) bytes.now) }
    ensures cause { IfErr result (λ fault. fault ≡ StoreFault.Failed) }
{
    match file.write_all(bytes) {
        Ok(()) => Ok(()),
        Err(_) => Err(StoreFault::Failed),
    }
}

// A new file, and its path.
#[derive(Drop)]
struct Beside<F> {
    file: F,
    path: PathBuf,
}

// A new file under the first name beside that file that nobody has. No other process gets the same one.
fn create_beside<R: Files>(
    alloc: Global,
    files: &R,
    name: &str,
) -> Result<Beside<R::File>, Unreplaced>
    ensures { IfOk result (λ made. (n : ℕ) × (n < 65535) × (path_buf_bytes made.path ≡ name_beside name.now n)) }
{
    for number in 0..u16::MAX {
        let Ok(path) = path_beside(alloc, name, number) else {
            return Err(Unreplaced::Memory);
        };
        match OpenOptions::new()
            .write(true)
            .create_new(true)
            .open(files, &path)
        {
            Ok(file) => return Ok(Beside { file, path }),
            Err(error) => {
                if error.kind() != ErrorKind::AlreadyExists {
                    return Err(cause_of(&error));
                }
            }
        }
    }
    Err(Unreplaced::Failed)
}

// Gives a new file the owner, the group and the permissions of the old one.
fn hand_over<R: Files>(files: &R, new: &Beside<R::File>, old: &Metadata) -> Result<(), Unreplaced> {
    if lchown(files, &new.path, Some(old.uid()), Some(old.gid())).is_err() {
        return Err(Unreplaced::Barred);
    }
    match new.file.set_permissions(old.permissions()) {
        Ok(()) => Ok(()),
        Err(_) => Err(Unreplaced::Barred),
    }
}

// Writes all the bytes of a new file, and gives it the name.
fn fill<R: Files>(
    files: &R,
    new: &mut Beside<R::File>,
    name: &str,
    bytes: &[u8],
) -> Result<(), Unreplaced> {
    if write_whole(&mut new.file, bytes).is_err() {
        return Err(Unreplaced::Failed);
    }
    match fs::rename(files, &new.path, name) {
        Ok(()) => Ok(()),
        Err(error) => Err(cause_of(&error)),
    }
}

// Puts a new file, of these bytes, under that name. Where that fails, it is removed.
fn replace<R: Files>(
    alloc: Global,
    files: &R,
    name: &str,
    old: Option<&Metadata>,
    bytes: &[u8],
) -> Result<(), Unreplaced> {
    let mut new = create_beside(alloc, files, name)?;
    let owned = match old {
        Some(old) => hand_over(files, &new, old),
        None => Ok(()),
    };
    let outcome = match owned {
        Ok(()) => fill(files, &mut new, name, bytes),
        Err(cause) => Err(cause),
    };
    if outcome.is_err() {
        // Nothing more can be done where it stays.
        let _ = fs::remove_file(files, &new.path);
    }
    outcome
}

// Writes the bytes into the file itself.
fn overwrite<R: Files>(files: &R, name: &str, bytes: &[u8]) -> Result<(), StoreFault>
    ensures { IfErr result (λ fault. fault ≡ StoreFault.Failed) }
{
    match fs::create(files, name) {
        Ok(mut file) => write_whole(&mut file, bytes),
        Err(_) => Err(StoreFault::Failed),
    }
}

// Replaces a file, or creates it; where that is barred, writes into it.
fn replace_or_overwrite<R: Files>(
    alloc: Global,
    files: &R,
    name: &str,
    old: Option<&Metadata>,
    bytes: &[u8],
) -> Result<(), StoreFault>
    ensures { IfErr result (λ fault. (fault ≡ StoreFault.Failed) ⊎ (fault ≡ StoreFault.Memory)) }
{
    match replace(alloc, files, name, old, bytes) {
        Ok(()) => Ok(()),
        Err(Unreplaced::Barred) => overwrite(files, name, bytes),
        Err(Unreplaced::Failed) => Err(StoreFault::Failed),
        Err(Unreplaced::Memory) => Err(StoreFault::Memory),
    }
}

// Whether a file may be written. It stays as it is.
fn may_be_written<R: Files>(files: &R, name: &str) -> bool {
    OpenOptions::new().write(true).open(files, name).is_ok()
}

/// Gives a file these bytes. A regular file that may be written is replaced by a new one, which then has its owner, its
/// group and its permissions; a name that is free gets a new file. Into anything else the bytes are written, and so they
/// are where the folder or its file system bars the new file.
///
/// After a fault of a file that was to be replaced, it stands as it was. `TooLong` is never answered.
pub fn save_file<R: Files>(
    alloc: Global,
    files: &R,
    name: &str,
    bytes: &[u8],
) -> Result<(), StoreFault>
    ensures { IfErr result (λ fault. (fault ≡ StoreFault.Failed) ⊎ (fault ≡ StoreFault.Memory)) }
{
    match way_of(fs::symlink_metadata(files, name)) {
        Way::Create => replace_or_overwrite(alloc, files, name, None, bytes),
        Way::Replace(old) => {
            if !may_be_written(files, name) {
                return Err(StoreFault::Failed);
            }
            replace_or_overwrite(alloc, files, name, Some(&old), bytes)
        }
        Way::Overwrite => overwrite(files, name, bytes),
    }
}
