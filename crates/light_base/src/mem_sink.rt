// A sink in memory. Its puts are numbered from 1, and those whose number is in a list fail.
ghost use Rattle.std.specs.Prelude.{◌≡◌, ◌<◌, ◌≤◌, ◌^◌, IfOk, length, min};
ghost use Rattle.light_base.specs.Sinks.{Put};
ghost use Rattle.light_base.specs.Answered.{put_has_failed};
ghost use Rattle.light_base.specs.InMemory.{is_failing, empty_sink, sink_told};
ghost use Rattle.light_base.specs.Putting.{sink_after};

use crate::{Sink, SinkFault};
use std::alloc::Global;
use std::marker::Model;

/// A sink in memory, which tells its bytes.
///
/// Its puts are numbered from 1. The numbers stop at 2^64 - 1, which all later puts have. A put whose number is among
/// those that fail counts a fault and answers `Failed`. Each other put takes the first bytes of the piece, as many as
/// one put may, or all where there are fewer, and counts no fault.
#[derive(Debug, Drop)]
pub struct MemSink {
    taken: Vec<u8>,
    piece: usize,
    fail: Vec<u64>,
    calls: u64,
    faults: u64,
}

impl Model for MemSink {
    ghost use Rattle.std.specs.Prelude.{◌≤◌};
    ghost use Rattle.light_base.specs.InMemory.{SinkState};

    ghost Value = { SinkState };

    ghost view = { λ s. record { taken = s.taken.items; piece = s.piece; fail = s.fail.items; calls = s.calls; faults = s.faults } };

    ghost invariant = { λ s. 1 ≤ s.piece };
}

impl MemSink {
    /// A sink that has taken nothing, takes at most `piece` bytes at once, and fails at the puts of these numbers.
    pub fn new(alloc: Global, piece: usize, fail: Vec<u64>) -> Self
        requires { 1 ≤ piece }
        ensures { result ≡ empty_sink piece fail.items }
    {
        MemSink {
            taken: Vec::new(alloc),
            piece,
            fail,
            calls: 0,
            faults: 0,
        }
    }

    /// All bytes taken so far, in order.
    pub fn taken(&self) -> &[u8]
        ensures { result.now ≡ self.now.taken }
    {
        &self.taken
    }
}

impl Sink for MemSink {
    ghost told = { sink_told };

    fn put(&mut self, bytes: &[u8]) -> Result<usize, SinkFault>
        requires { 0 < length bytes.now }
        ensures put { Put (sink_told self.old) (sink_told self.new) bytes.now result }
        ensures counted { self.new.faults < 2 ^ 64 }

        // It fails exactly where its number is among those that fail.
        ensures fails { put_has_failed result ≡ is_failing self.old.fail self.old.calls }
        ensures took { IfOk result (λ count. count ≡ min self.old.piece (length bytes.now)) }
        ensures after { self.new ≡ sink_after self.old bytes.now result }
    {
        self.calls = self.calls.saturating_add(1);
        if self.fail.contains(&self.calls) {
            self.faults = self.faults.saturating_add(1);
            return Err(SinkFault::Failed);
        }
        let count = self.piece.min(bytes.len());
        self.taken.extend_from_slice(&bytes[..count])?;
        Ok(count)
    }
}
