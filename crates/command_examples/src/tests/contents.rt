// What stands in a file or was printed, as a row tells it.
use light_base::Tag;
use std::alloc::{AllocError, Global};

// In a text a slash stands for the end of a line. Bytes are told in hexadecimal digits.
#[derive(Clone, Copy)]
pub enum Content {
    // There is no such file.
    Absent,
    Text(&'static str),
    Hex(&'static str),
    // So many bytes: the first of these, or these and zeros.
    Sized(&'static str, usize),
    // These bytes, so many zeros, and these bytes.
    Wide(&'static str, usize, &'static str),
    // A text so many times, and then a text.
    Repeated(&'static str, usize, &'static str),
    // A text, and then so many outputs, which count from 0.
    Counted(&'static str, u32),
    // The schedule of these events, each told as `thread:step`, with a space between two.
    Order(&'static str),
}

// One thread that halts at once.
pub const SMALLEST_BYTES: &str = "4c494d31 01 0001 0001 00000000 0000000000000000";

pub const SMALLEST: Content = Content::Hex(SMALLEST_BYTES);

pub const SMALLEST_SOURCE: Content = Content::Text(".words 1/.thread/halt/");

pub const SMALLEST_TEXT: Content = Content::Text("thread 0 halted steps 0 instr 0/");

// One thread that writes 7 to word 0, reads it and puts it out.
pub const OWN_WRITE_READ: Content = Content::Hex(
    "4c494d31 01 0001 0004 00000000 0101000000000007 1201000000000000 1102000000000000 1002000000000000",
);

// Word 0 begins with 5. Thread 0 reads it and puts it out, thread 1 writes 9 to it.
pub const INITIAL_VALUE: Content = Content::Hex(
    "4c494d31 02 0001 0002 0002 00000005 1101000000000000 1001000000000000 0101000000000009 1201000000000000",
);

// Two threads that each add 1 to word 0 by a load and a store, and put out what they wrote.
pub const LOST_UPDATE: Content = Content::Hex(
    "4c494d31 02 0001 0004 0004 00000000 1101000000000000 0b01010000000001 1201000000000000 1001000000000000 1101000000000000 0b01010000000001 1201000000000000 1001000000000000",
);

// Two threads: one stores 42 and then 1, the other waits for the 1 and puts out the first word.
pub const MESSAGE: Content = Content::Hex(
    "4c494d31 02 0002 0004 0004 00000000 00000000 010100000000002a 1201000000000000 0102000000000001 1202000000000001 1101000000000001 0d01000000000000 1102000000000000 1002000000000000",
);

// Two threads that each raise a flag and wait for the other one.
pub const TWO_FLAGS: Content = Content::Hex(
    "4c494d31 02 0002 0004 0004 00000000 00000000 0101000000000001 1201000000000000 1102000000000001 0d02000000000002 0101000000000001 1201000000000001 1102000000000000 0d02000000000002",
);

// The value of a hexadecimal digit.
fn digit_of(b: u8) -> Option<u8> {
    match b {
        b'0'..=b'9' => Some(b - b'0'),
        b'a'..=b'f' => Some(b - b'a' + 10),
        _ => None,
    }
}

fn bytes_of_digits(alloc: Global, digits: &str) -> Result<Vec<u8>, AllocError> {
    let mut bytes = Vec::new(alloc);
    let mut first = None;
    for digit in digits.bytes().filter_map(digit_of) {
        match first {
            None => first = Some(digit),
            Some(high) => {
                bytes.push((high << 4) | digit)?;
                first = None;
            }
        }
    }
    Ok(bytes)
}

fn bytes_of_text(alloc: Global, text: &str) -> Result<Vec<u8>, AllocError> {
    let mut bytes = Vec::new(alloc);
    for b in text.as_bytes() {
        bytes.push(if *b == b'/' { b'\n' } else { *b })?;
    }
    Ok(bytes)
}

// The four bytes of an event in a schedule.
fn bytes_of_event(text: &str) -> Option<[u8; 4]> {
    let (thread, step) = text.split_once(':')?;
    let tag = Tag::of(thread.parse().ok()?, step.parse().ok()?)?;
    Some(tag.bits().to_be_bytes())
}

fn bytes_of_order(alloc: Global, order: &str) -> Result<Vec<u8>, AllocError> {
    let mut events = Vec::new(alloc);
    let mut count: u32 = 0;
    for event in order.split_whitespace().filter_map(bytes_of_event) {
        events.extend_from_slice(&event)?;
        count = count.saturating_add(1);
    }
    let mut bytes = Vec::from_slice(alloc, b"LSC1")?;
    bytes.extend_from_slice(&count.to_be_bytes())?;
    bytes.extend_from_slice(&events)?;
    Ok(bytes)
}

// The bytes that are told; none of a file that is not there.
pub fn bytes_of(alloc: Global, content: Content) -> Result<Vec<u8>, AllocError> {
    match content {
        Content::Absent => Ok(Vec::new(alloc)),
        Content::Text(text) => bytes_of_text(alloc, text),
        Content::Hex(digits) => bytes_of_digits(alloc, digits),
        Content::Sized(digits, len) => {
            let mut bytes = bytes_of_digits(alloc, digits)?;
            bytes.resize(len, 0)?;
            Ok(bytes)
        }
        Content::Wide(head, zeros, tail) => {
            let mut bytes = bytes_of_digits(alloc, head)?;
            bytes.resize(bytes.len().saturating_add(zeros), 0)?;
            bytes.extend_from_slice(&bytes_of_digits(alloc, tail)?)?;
            Ok(bytes)
        }
        Content::Repeated(text, count, tail) => {
            let mut bytes = Vec::new(alloc);
            for _ in 0..count {
                bytes.extend_from_slice(&bytes_of_text(alloc, text)?)?;
            }
            bytes.extend_from_slice(&bytes_of_text(alloc, tail)?)?;
            Ok(bytes)
        }
        Content::Counted(text, count) => {
            let mut bytes = bytes_of_text(alloc, text)?;
            for value in 0..count {
                let line = format!(in alloc; "out {value}\n")?;
                bytes.extend_from_slice(line.as_bytes())?;
            }
            Ok(bytes)
        }
        Content::Order(order) => bytes_of_order(alloc, order),
    }
}
