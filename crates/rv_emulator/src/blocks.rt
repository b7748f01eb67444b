// Runs whose output is put in blocks.

ghost use Rattle.std.specs.Prelude.{◌≡◌, ◌≤◌, [], true, OnOk, OnErr};
ghost use Rattle.grift_base.specs.Sink.{sink_seen};
ghost use Rattle.rv_emulator.specs.Consoles.{reserved_by};
ghost use Rattle.rv_emulator.specs.Processor.{state_of, IsSoundBy};
ghost use Rattle.rv_emulator.specs.Blocks.{PutsOutput, PutsRest, EndsBlock, RunsBlocks, with_output, stop_by};
ghost use Rattle.rv_emulator.specs.Turns.{outcome_of};

use crate::processor::Processor;
use crate::ram::Ram;
use crate::stops::{BlockStop, Stop};
use grift_base::sinks::{Sink, SinkFault};

/// How many bytes of output a block has at least.
pub const BLOCK: usize = 4096;

/// How many bytes of output there is room for: a block, and what one instruction prints.
pub const BLOCK_ROOM: usize = 4128;

impl<R: Ram> Processor<R> {
    /// Puts what was printed, if that is anything, and keeps it no longer.
    pub fn put_output<O: Sink>(&mut self, out: &mut O) -> Result<(), SinkFault>
        ensures put { PutsOutput self.old.console.output.items result
            (sink_seen O.written O.fault_count out.old out.new) }
        ensures ok { OnOk result (state_of R.memory self.new ≡ with_output [] (state_of R.memory self.old)) }
        ensures err { OnErr result (self.new ≡ self.old) }
        ensures rest { self.new ≡ record self.old { console = self.new.console } }
        ensures reserved { reserved_by self.new.console ≡ reserved_by self.old.console }
    {
        if self.console.output.is_empty() {
            return Ok(());
        }
        out.put(self.console.output.as_slice())?;
        self.console.output.clear();
        Ok(())
    }

    // Puts the rest of the output at a stop.
    fn put_rest<O: Sink>(&mut self, stop: Stop, out: &mut O) -> BlockStop
        ensures put { PutsRest stop (state_of R.memory self.old) result
            (sink_seen O.written O.fault_count out.old out.new) (state_of R.memory self.new) }
        ensures rest { self.new ≡ record self.old { console = self.new.console } }
        ensures reserved { reserved_by self.new.console ≡ reserved_by self.old.console }
    {
        match self.put_output(out) {
            Ok(()) => BlockStop::Stopped(stop),
            Err(fault) => stopped_by(fault),
        }
    }

    // Ends a run by a stop: the rest of the output is put, except at want of memory.
    fn end_blocks<O: Sink>(&mut self, stop: Stop, out: &mut O) -> BlockStop
        ensures ends { EndsBlock (outcome_of stop) stop (state_of R.memory self.old) result
            (sink_seen O.written O.fault_count out.old out.new) (state_of R.memory self.new) }
        ensures rest { self.new ≡ record self.old { console = self.new.console } }
        ensures reserved { reserved_by self.new.console ≡ reserved_by self.old.console }
    {
        match stop {
            Stop::OutOfMemory => BlockStop::Stopped(stop),
            _ => self.put_rest(stop, out),
        }
    }

    /// Makes at most these many turns. The output is put whenever a block is full, and at the stop.
    pub fn run_blocks<O: Sink>(&mut self, steps: u64, out: &mut O) -> BlockStop
        requires sound { IsSoundBy R.bytes_len R.memory self.old }
        requires nothing { self.old.console.output.items ≡ [] }
        ensures ran { RunsBlocks (R.whole self.new.ram) steps (state_of R.memory self.old) result
            (sink_seen O.written O.fault_count out.old out.new) (state_of R.memory self.new) }
        ensures sound { IsSoundBy R.bytes_len R.memory self.new }
        ensures reserved { reserved_by self.old.console ≤ reserved_by self.new.console }
        ensures stays_whole { R.whole self.old.ram ≡ true → R.whole self.new.ram ≡ true }
    {
        if self.console.reserve(BLOCK_ROOM).is_err() {
            return BlockStop::Stopped(Stop::OutOfMemory);
        }
        for _ in 0..steps {
            if let Some(stop) = self.turn() {
                return self.end_blocks(stop, out);
            }
            if self.console.output.len() >= BLOCK {
                if let Err(fault) = self.put_output(out) {
                    return stopped_by(fault);
                }
            }
        }
        self.end_blocks(Stop::StepsSpent, out)
    }
}

// How a run with blocks stops where a put failed or found no memory.
fn stopped_by(fault: SinkFault) -> BlockStop
    ensures { result ≡ stop_by fault }
{
    match fault {
        SinkFault::Failed => BlockStop::SinkFailed,
        SinkFault::OutOfMemory => BlockStop::Stopped(Stop::OutOfMemory),
    }
}
