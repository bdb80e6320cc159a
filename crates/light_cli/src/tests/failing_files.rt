// Files of the system, of which one kind of call fails.
use std::alloc::Allocator;
use std::fs::{Metadata, OpenFile, OpenOptions, Permissions};
use std::io::{self, ErrorKind, Read, Seek, SeekFrom, Write};
use std::rt::Files;

// A kind of call that a save makes.
#[derive(Clone, Copy, Debug, PartialEq, Eq)]
pub enum Call {
    OpenOld,
    CreateNew,
    Own,
    Permit,
    Write,
    Rename,
}

#[derive(Drop)]
pub struct FailingFiles<'a, R> {
    rt: &'a R,
    call: Call,
    kind: ErrorKind,
}

impl<'a, R> FailingFiles<'a, R> {
    pub fn new(rt: &'a R, call: Call, kind: ErrorKind) -> Self {
        FailingFiles { rt, call, kind }
    }

    fn answer(&self, call: Call) -> io::Result<()> {
        if self.call == call {
            return Err(io::Error::from(self.kind));
        }
        Ok(())
    }
}

// Where a write is to fail, it takes two bytes a call, until it has taken four.
#[derive(Drop)]
pub struct FailingFile<F> {
    inner: F,
    call: Call,
    kind: ErrorKind,
    taken: usize,
}

impl<F> FailingFile<F> {
    fn answer(&self, call: Call) -> io::Result<()> {
        if self.call == call {
            return Err(io::Error::from(self.kind));
        }
        Ok(())
    }
}

impl<F: Read> Read for FailingFile<F> {
    fn read(&mut self, buf: &mut [u8]) -> io::Result<usize> {
        self.inner.read(buf)
    }
}

impl<F: Write> Write for FailingFile<F> {
    fn write(&mut self, buf: &[u8]) -> io::Result<usize> {
        if self.taken >= 4 {
            self.answer(Call::Write)?;
        }
        let count = self.inner.write(&buf[..buf.len().min(2)])?;
        self.taken = self.taken.saturating_add(count);
        Ok(count)
    }

    fn flush(&mut self) -> io::Result<()> {
        self.inner.flush()
    }
}

impl<F: Seek> Seek for FailingFile<F> {
    fn seek(&mut self, to: SeekFrom) -> io::Result<u64> {
        self.inner.seek(to)
    }
}

impl<F: OpenFile> OpenFile for FailingFile<F> {
    fn metadata(&self) -> io::Result<Metadata> {
        self.inner.metadata()
    }

    fn set_len(&self, size: u64) -> io::Result<()> {
        self.inner.set_len(size)
    }

    fn sync_all(&self) -> io::Result<()> {
        self.inner.sync_all()
    }

    fn sync_data(&self) -> io::Result<()> {
        self.inner.sync_data()
    }

    fn set_permissions(&self, perm: Permissions) -> io::Result<()> {
        self.answer(Call::Permit)?;
        self.inner.set_permissions(perm)
    }
}

impl<R: Files> Files for FailingFiles<'_, R> {
    type File = FailingFile<R::File>;

    type Dir = R::Dir;

    fn open_file(&self, how: &OpenOptions, path: &str) -> io::Result<FailingFile<R::File>> {
        if how.asks_create_new() {
            self.answer(Call::CreateNew)?;
        } else if how.asks_write() && !how.asks_create() {
            self.answer(Call::OpenOld)?;
        }
        Ok(FailingFile {
            inner: self.rt.open_file(how, path)?,
            call: self.call,
            kind: self.kind,
            taken: 0,
        })
    }

    fn open_dir(&self, path: &str) -> io::Result<R::Dir> {
        self.rt.open_dir(path)
    }

    fn metadata(&self, path: &str) -> io::Result<Metadata> {
        self.rt.metadata(path)
    }

    fn symlink_metadata(&self, path: &str) -> io::Result<Metadata> {
        self.rt.symlink_metadata(path)
    }

    fn copy(&self, from: &str, to: &str) -> io::Result<u64> {
        self.rt.copy(from, to)
    }

    fn rename(&self, from: &str, to: &str) -> io::Result<()> {
        self.answer(Call::Rename)?;
        self.rt.rename(from, to)
    }

    fn remove_file(&self, path: &str) -> io::Result<()> {
        self.rt.remove_file(path)
    }

    fn create_dir(&self, path: &str) -> io::Result<()> {
        self.rt.create_dir(path)
    }

    fn remove_dir(&self, path: &str) -> io::Result<()> {
        self.rt.remove_dir(path)
    }

    fn remove_dir_all<B: Allocator>(&self, alloc: B, path: &str) -> io::Result<()> {
        self.rt.remove_dir_all(alloc, path)
    }

    fn lchown(&self, path: &str, uid: Option<u32>, gid: Option<u32>) -> io::Result<()> {
        self.answer(Call::Own)?;
        self.rt.lchown(path, uid, gid)
    }
}
