// Where output goes.

ghost use Rattle.std.specs.Prelude.{ℕ, ◌≡◌, List, [], Option, Some, None, IsOk, IfOk};
ghost use Rattle.grift_base.specs.Sink.{Puts, put_failed, fails_to_put, sink_after, sink_seen};

use crate::lists::{Bytes, CallList, OutOfMemory};
use std::alloc::Global;
use std::marker::Model;

/// Why bytes weren't taken.
#[derive(Clone, Copy, PartialEq, Eq)]
pub enum SinkFault {
    /// The outside failed.
    Failed,
    /// No memory was left.
    OutOfMemory,
}

impl From<OutOfMemory> for SinkFault {
    ghost use Rattle.std.specs.Prelude.{◌≡◌};
    ghost use Rattle.grift_base.specs.declared.sinks.SinkFault.TheVariants.{OutOfMemory};

    ghost from_gives = { λ _ fault. fault ≡ OutOfMemory };

    fn from(_error: OutOfMemory) -> SinkFault {
        SinkFault::OutOfMemory
    }
}

/// A taker of bytes.
pub trait Sink {
    // The bytes written so far, where they are told.
    ghost written: { Self → Option (List ℕ) };

    // How many puts failed.
    ghost fault_count: { Self → ℕ };

    /// Writes these bytes. `Failed` comes only where the count of faults rises, and then a beginning of the bytes is
    /// written. After `OutOfMemory` the sink is as before.
    fn put(&mut self, bytes: &[u8]) -> Result<(), SinkFault>
        ensures { Puts bytes.now result (sink_seen written fault_count self.old self.new) };

    /// How many puts failed, up to the last value of u64.
    fn faults(&self) -> u64
        ensures { result ≡ fault_count self.now };
}

/// A sink that keeps the bytes in memory. The puts whose numbers, from 0, were told fail and add nothing; a put
/// that finds no memory isn't counted.
#[derive(Drop)]
pub struct MemSink {
    written: Bytes,
    failing: CallList,
    calls: u64,
    faults: u64,
}

impl Model for MemSink {
    ghost use Rattle.grift_base.specs.Sink.{SinkState};

    ghost Value = { SinkState };

    ghost view = { λ s. record { written = s.written; failing = s.failing; calls = s.calls; faults = s.faults } };
}

impl MemSink {
    /// A sink with nothing written.
    pub fn new(alloc: Global, failing: CallList) -> Result<MemSink, OutOfMemory>
        ensures { IfOk result (λ sink. sink ≡ record { written = []; failing = failing; calls = 0; faults = 0 }) }
    {
        Ok(MemSink {
            written: Bytes::new(alloc),
            failing,
            calls: 0,
            faults: 0,
        })
    }

    /// The bytes written so far.
    pub fn bytes(&self) -> &[u8]
        ensures { result.now ≡ self.now.written }
    {
        self.written.as_slice()
    }
}

impl Sink for MemSink {
    ghost written = { λ sink. Some sink.written };

    ghost fault_count = { λ sink. sink.faults };

    fn put(&mut self, bytes: &[u8]) -> Result<(), SinkFault>
        ensures fails { put_failed result ≡ fails_to_put self.old }
        ensures sink { self.new ≡ sink_after result bytes.now self.old }
    {
        if self.failing.as_slice().contains(&self.calls) {
            self.calls = self.calls.saturating_add(1);
            self.faults = self.faults.saturating_add(1);
            return Err(SinkFault::Failed);
        }
        self.written.extend(bytes)?;
        self.calls = self.calls.saturating_add(1);
        Ok(())
    }

    fn faults(&self) -> u64 {
        self.faults
    }
}

/// A sink that takes everything and keeps nothing.
#[derive(Clone, Copy, PartialEq, Eq, Default)]
pub struct DropSink;

impl DropSink {
    /// A sink that takes everything.
    pub fn new() -> DropSink {
        DropSink
    }
}

impl Sink for DropSink {
    ghost written = { λ _. None };

    ghost fault_count = { λ _. 0 };

    fn put(&mut self, _bytes: &[u8]) -> Result<(), SinkFault>
        ensures { IsOk result }
    {
        Ok(())
    }

    fn faults(&self) -> u64 {
        0
    }
}
