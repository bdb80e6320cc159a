//! What all layers share: the writers of words, numbers in bytes and as text, the outside as traits, and its plain
//! form in memory.
#![tactic(auto)]

mod big_endian;
mod decimal;
mod mem_sink;
mod mem_store;
mod memory;
mod put;
mod put_pieces;
mod sink;
mod store;
mod tag;

pub use big_endian::{u16_at, u32_at};
pub use decimal::put_decimal;
pub use mem_sink::MemSink;
pub use mem_store::MemStore;
pub use memory::Memory;
pub use put::{put_u16, put_u32};
pub use put_pieces::put_all;
pub use sink::{Sink, SinkFault};
pub use store::{Store, StoreFault};
pub use tag::{Cell, Event, Tag, pack, unpack};
