// The edge on the real thing: files that are there and that are not, a device that is full, and signals that come
// between.
use crate::ending::{exit_code, tell};
use crate::file_store::{FileStore, read_all};
use crate::std_sink::StdSink;
use light_base::{Sink, SinkFault, Store, StoreFault};
use light_top::{OpenGate, Status, light};
use std::alloc::{AllocError, Global};
use std::fs;
use std::io::{self, ErrorKind, Read, Write};
use std::process::ExitCode;
use std::test::Fail;

mod failing_files;
mod saves;

// A program of one thread that halts at once.
const SMALLEST: [u8; 21] = [
    76, 73, 77, 49, 1, 0, 1, 0, 1, 0, 0, 0, 0, 0, 0, 0, 0, 0, 0, 0, 0,
];

// The words of a line, with one space between two.
fn words_of(alloc: Global, line: &str) -> Result<Vec<String>, AllocError> {
    let mut all = Vec::new(alloc);
    for word in line.split(' ') {
        all.push(String::from_str(alloc, word)?)?;
    }
    Ok(all)
}

#[test]
fn files_are_saved_and_loaded(rt: HostRuntime) -> Result<(), Fail> {
    let alloc = rt.alloc();
    let mut store = FileStore::new(&rt, alloc);
    assert!(rt; store.save("saved.img", &SMALLEST).is_ok());
    let bytes = store.load(alloc, "saved.img", 21);
    assert!(rt; bytes.is_ok_and(|bytes| bytes.as_slice() == SMALLEST.as_slice()));
    let long = store.load(alloc, "saved.img", 20);
    assert!(rt; long == Err(StoreFault::TooLong { taken: 21 }));
    for name in ["no such file", "/"] {
        let none = store.load(alloc, name, 21);
        assert!(rt; none == Err(StoreFault::Failed), "{name}");
    }
    assert_eq!(rt; store.save("/", &SMALLEST), Err(StoreFault::Failed));
    assert_eq!(rt; store.save("/dev/full", &SMALLEST), Err(StoreFault::Failed));
    Ok(())
}

#[test]
fn a_full_device_is_an_output_fault(rt: HostRuntime) -> Result<(), Fail> {
    let mut full = StdSink::new(fs::create(&rt, "/dev/full")?);
    assert_eq!(rt; full.put(b"text"), Err(SinkFault::Failed));
    let mut kept = StdSink::new(fs::create(&rt, "text.txt")?);
    assert_eq!(rt; kept.put(b"text"), Ok(4));
    Ok(())
}

#[test]
fn an_image_of_a_file_is_played(rt: HostRuntime) -> Result<(), Fail> {
    let alloc = rt.alloc();
    let mut store = FileStore::new(&rt, alloc);
    assert!(rt; store.save("played.img", &SMALLEST).is_ok());
    let words = words_of(alloc, "run played.img 10 10 10")?;
    let mut out = StdSink::new(fs::create(&rt, "played.txt")?);
    assert_eq!(rt;
        light(&rt, alloc, &words, &mut store, &mut out, &OpenGate),
        Status::Ok
    );
    let text = fs::read_to_string(&rt, "played.txt")?;
    assert_eq!(rt; text.as_str(), "thread 0 halted steps 0 instr 0\n");
    let mut full = StdSink::new(fs::create(&rt, "/dev/full")?);
    assert_eq!(rt;
        light(&rt, alloc, &words, &mut store, &mut full, &OpenGate),
        Status::SinkFault
    );
    Ok(())
}

// What gives and takes one byte a call, and at each second call is interrupted by a signal.
#[derive(Drop)]
struct Slow<F> {
    inner: F,
    interrupted: bool,
}

impl<F> Slow<F> {
    fn new(inner: F) -> Self {
        Slow {
            inner,
            interrupted: false,
        }
    }

    fn interrupt(&mut self) -> io::Result<()> {
        self.interrupted = !self.interrupted;
        if self.interrupted {
            return Err(io::Error::from(ErrorKind::Interrupted));
        }
        Ok(())
    }
}

impl<F: Read> Read for Slow<F> {
    fn read(&mut self, buf: &mut [u8]) -> io::Result<usize> {
        self.interrupt()?;
        let count = buf.len().min(1);
        self.inner.read(&mut buf[..count])
    }
}

impl<F: Write> Write for Slow<F> {
    fn write(&mut self, buf: &[u8]) -> io::Result<usize> {
        self.interrupt()?;
        self.inner.write(&buf[..buf.len().min(1)])
    }

    fn flush(&mut self) -> io::Result<()> {
        self.inner.flush()
    }
}

#[test]
fn what_a_signal_stopped_is_asked_again(rt: HostRuntime) -> Result<(), Fail> {
    let alloc = rt.alloc();
    let mut reader = Slow::new(SMALLEST.as_slice());
    let bytes = read_all(alloc, &mut reader, 21);
    assert!(rt; bytes.is_ok_and(|bytes| bytes.as_slice() == SMALLEST.as_slice()));
    let mut sink = StdSink::new(Slow::new(fs::create(&rt, "slow.txt")?));
    assert_eq!(rt; sink.put(b"text"), Ok(1));
    assert_eq!(rt; tell(alloc, &mut sink, &Status::Usage), Ok(()));
    let told = fs::read_to_string(&rt, "slow.txt")?;
    assert_eq!(rt; told.as_str(), "tlight: usage\n");
    Ok(())
}

#[test]
fn the_program_ends_with_its_status(rt: HostRuntime) {
    for (status, code) in [
        (Status::Ok, 0),
        (Status::Usage, 2),
        (Status::SinkFault, 14),
        (Status::Memory, 70),
    ] {
        assert_eq!(rt; exit_code(&status), ExitCode::from(code));
    }
}
