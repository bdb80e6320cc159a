//! Programs written as text: the text's grammar, and the program that it says.
#![tactic(auto)]

mod asm_fault;
mod assembly;
mod head;
mod laws;
mod lines;
mod listing;
mod mnemonic;
mod numerals;
mod operands;
mod parts;
mod registers;
mod scope;
mod text;
mod words;

pub use asm_fault::{AsmFault, AsmKind};
pub use laws::{computed_texts, text_laws};
pub use lines::split_line;
pub use listing::list;
pub use text::assemble;
