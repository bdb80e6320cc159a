// Files that end too early, at each length: what is said of them, and that nothing else is done.
use super::contents::{Content, OWN_WRITE_READ, bytes_of};
use super::inputs::TAKER;
use super::logs::OLD_LOG;
use super::recordings::OWN_WRITE_READ_LOG;
use super::rows::{call, store_of};
use std::alloc::Global;
use std::process::Abort;
use std::test::Fail;
use std::thread::Threads;

// A command, the files that it finds whole, and the one that is cut; the status, and whether it tells the number of bytes.
#[derive(Clone, Copy)]
pub struct Cut {
    words: &'static str,
    whole: &'static [(&'static str, Content)],
    name: &'static str,
    cut: Content,
    status: &'static str,
    is_counted: bool,
}

const IMAGE: Cut = Cut {
    words: "list i",
    whole: &[],
    name: "i",
    cut: OWN_WRITE_READ,
    status: "image refused kind 1 thread 0 at 0",
    is_counted: false,
};

const LOG: Cut = Cut {
    words: "show l",
    whole: &[],
    name: "l",
    cut: OWN_WRITE_READ_LOG,
    status: "log refused kind 1 at ",
    is_counted: true,
};

pub static CUTS: [Cut; 11] = [
    IMAGE,
    Cut {
        words: "run i 1 1 1",
        ..IMAGE
    },
    Cut {
        words: "record i l 1 1 1",
        ..IMAGE
    },
    Cut {
        words: "replay i l s 1",
        whole: &[("l", OWN_WRITE_READ_LOG)],
        ..IMAGE
    },
    LOG,
    Cut {
        words: "solve l s 1",
        ..LOG
    },
    Cut {
        words: "check l s",
        whole: &[("s", Content::Order("0:1 0:2"))],
        ..LOG
    },
    Cut {
        words: "replay i l s 1",
        whole: &[("i", OWN_WRITE_READ)],
        ..LOG
    },
    Cut {
        words: "upgrade l n",
        cut: OLD_LOG,
        ..LOG
    },
    Cut {
        words: "check l s",
        whole: &[("l", OWN_WRITE_READ_LOG)],
        name: "s",
        cut: Content::Order("0:1 0:2"),
        status: "schedule refused kind 1 at ",
        is_counted: true,
    },
    Cut {
        words: "run i 1 1 1 n",
        whole: &[("i", TAKER)],
        name: "n",
        cut: Content::Hex("4c494e31 01 00000002 00000007 00000008"),
        status: "inputs refused kind 1",
        is_counted: false,
    },
];

// The command on the first bytes of the file.
fn cut_at<R: Abort + Threads + Sync>(
    rt: &R,
    alloc: Global,
    row: &Cut,
    bytes: &[u8],
) -> Result<(), Fail> {
    let mut store = store_of(alloc, row.whole)?;
    store.put_file(row.name, bytes)?;
    let (status, text) = call(rt, alloc, &mut store, row.words)?;
    let told = if row.is_counted {
        format!(in alloc; "{}{}", row.status, bytes.len())?
    } else {
        format!(in alloc; "{}", row.status)?
    };
    assert_eq!(rt; status.as_str(), told.as_str(), "{}", row.words);
    assert!(rt; text.is_empty(), "{}", row.words);
    assert!(rt; store.file(row.name) == Some(bytes), "{}", row.words);
    Ok(())
}

// The command on the file at each length below its own.
pub fn cut_short<R: Abort + Threads + Sync>(rt: &R, alloc: Global, row: &Cut) -> Result<(), Fail> {
    let bytes = bytes_of(alloc, row.cut)?;
    for len in 0..bytes.len() {
        cut_at(rt, alloc, row, &bytes[..len])?;
    }
    Ok(())
}
