// Programs written as text, in which a slash stands for the end of a line.
use assembler::assemble;
use light_base::Memory;
use machine::Program;
use std::alloc::{AllocError, Global};
use std::process::Abort;
use std::test::Fail;

// The bytes of a text whose slashes end lines.
pub fn lines_of(alloc: Global, text: &str) -> Result<Vec<u8>, AllocError> {
    let mut bytes = Vec::new(alloc);
    for b in text.as_bytes() {
        bytes.push(if *b == b'/' { b'\n' } else { *b })?;
    }
    Ok(bytes)
}

pub fn program_of(rt: &impl Abort, alloc: Global, text: &str) -> Result<Program, Fail> {
    let text = lines_of(alloc, text)?;
    assert!(rt; text.len() < 1_000_000);
    Ok(assemble(alloc, &text).map_err(|_| Memory)?)
}
