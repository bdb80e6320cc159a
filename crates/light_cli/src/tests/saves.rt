// Files that are saved over others: replaced whole, or left as they were.
use super::failing_files::{Call, FailingFiles};
use crate::file_store::FileStore;
use light_base::{Store, StoreFault};
use std::alloc::Alloc;
use std::fs::{self, Permissions};
use std::io::{self, ErrorKind};
use std::os::unix::fs::{MetadataExt, PermissionsExt, symlink};
use std::rt::Files;
use std::test::Fail;

const OLD: &[u8] = b"the old bytes";

const NEW: &[u8] = b"the new ones";

// The files that a save in `folder` puts beside others, first to last.
const FIRST_BESIDE: &str = "light-0.tmp";

// Whether that file has these bytes.
fn has<R: Files + Alloc>(rt: &R, name: &str, bytes: &[u8]) -> io::Result<bool> {
    Ok(fs::read(rt, name)?.as_slice() == bytes)
}

#[test]
fn a_file_is_replaced_by_a_new_one(rt: HostRuntime) -> Result<(), Fail> {
    let alloc = rt.alloc();
    let mut store = FileStore::new(&rt, alloc);
    assert_eq!(rt; store.save("replaced.img", OLD), Ok(()));
    fs::set_permissions(&rt, "replaced.img", Permissions::from_mode(0o640))?;
    let old = fs::metadata(&rt, "replaced.img")?;
    fs::hard_link(&rt, "replaced.img", "kept.img")?;
    assert_eq!(rt; store.save("replaced.img", NEW), Ok(()));
    assert!(rt; has(&rt, "replaced.img", NEW)?);
    assert!(rt; has(&rt, "kept.img", OLD)?);
    let new = fs::metadata(&rt, "replaced.img")?;
    assert_eq!(rt; new.mode(), old.mode());
    assert_eq!(rt; (new.uid(), new.gid()), (old.uid(), old.gid()));
    assert!(rt; new.ino() != old.ino());
    assert!(rt; !fs::exists(&rt, FIRST_BESIDE)?);
    Ok(())
}

#[test]
fn a_save_that_fails_leaves_what_was_there(rt: HostRuntime) -> Result<(), Fail> {
    let alloc = rt.alloc();
    for (call, kind) in [
        (Call::OpenOld, ErrorKind::PermissionDenied),
        (Call::CreateNew, ErrorKind::StorageFull),
        (Call::Write, ErrorKind::StorageFull),
        (Call::Write, ErrorKind::PermissionDenied),
        (Call::Rename, ErrorKind::StorageFull),
    ] {
        fs::write(&rt, "left.img", OLD)?;
        let files = FailingFiles::new(&rt, call, kind);
        let mut store = FileStore::new(&files, alloc);
        assert_eq!(rt;
            store.save("left.img", NEW),
            Err(StoreFault::Failed),
            "{call:?}"
        );
        assert!(rt; has(&rt, "left.img", OLD)?, "{call:?}");
        assert!(rt; !fs::exists(&rt, FIRST_BESIDE)?, "{call:?}");
        if call != Call::OpenOld {
            assert_eq!(rt;
                store.save("none.img", NEW),
                Err(StoreFault::Failed),
                "{call:?}"
            );
            assert!(rt; !fs::exists(&rt, "none.img")?, "{call:?}");
            assert!(rt; !fs::exists(&rt, FIRST_BESIDE)?, "{call:?}");
        }
    }
    Ok(())
}

#[test]
fn a_file_that_may_not_be_replaced_is_written_into(rt: HostRuntime) -> Result<(), Fail> {
    let alloc = rt.alloc();
    for (call, kind) in [
        (Call::CreateNew, ErrorKind::PermissionDenied),
        (Call::CreateNew, ErrorKind::ReadOnlyFilesystem),
        (Call::Own, ErrorKind::PermissionDenied),
        (Call::Permit, ErrorKind::PermissionDenied),
        (Call::Rename, ErrorKind::PermissionDenied),
        (Call::Rename, ErrorKind::ResourceBusy),
    ] {
        fs::write(&rt, "barred.img", OLD)?;
        let old = fs::metadata(&rt, "barred.img")?;
        let files = FailingFiles::new(&rt, call, kind);
        let mut store = FileStore::new(&files, alloc);
        assert_eq!(rt; store.save("barred.img", NEW), Ok(()), "{call:?}");
        assert!(rt; has(&rt, "barred.img", NEW)?, "{call:?}");
        assert_eq!(rt;
            fs::metadata(&rt, "barred.img")?.ino(),
            old.ino(),
            "{call:?}"
        );
        assert!(rt; !fs::exists(&rt, FIRST_BESIDE)?, "{call:?}");
    }
    Ok(())
}

#[test]
fn through_a_link_its_file_is_written(rt: HostRuntime) -> Result<(), Fail> {
    let alloc = rt.alloc();
    let mut store = FileStore::new(&rt, alloc);
    fs::write(&rt, "linked.img", OLD)?;
    symlink(&rt, "linked.img", "link.img")?;
    assert_eq!(rt; store.save("link.img", NEW), Ok(()));
    assert!(rt; fs::symlink_metadata(&rt, "link.img")?.is_symlink());
    assert!(rt; has(&rt, "linked.img", NEW)?);
    Ok(())
}

#[test]
fn a_name_that_is_taken_is_left_alone(rt: HostRuntime) -> Result<(), Fail> {
    let alloc = rt.alloc();
    let mut store = FileStore::new(&rt, alloc);
    fs::create_dir(&rt, "folder")?;
    fs::write(&rt, "folder/light-0.tmp", OLD)?;
    assert_eq!(rt; store.save("folder/saved.img", NEW), Ok(()));
    assert!(rt; has(&rt, "folder/saved.img", NEW)?);
    assert!(rt; has(&rt, "folder/light-0.tmp", OLD)?);
    assert!(rt; !fs::exists(&rt, "folder/light-1.tmp")?);
    assert_eq!(rt; store.save("folder/light-0.tmp", NEW), Ok(()));
    assert!(rt; has(&rt, "folder/light-0.tmp", NEW)?);
    assert!(rt; !fs::exists(&rt, "folder/light-1.tmp")?);
    Ok(())
}
