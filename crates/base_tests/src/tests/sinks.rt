// Sinks that keep bytes, and sinks that drop them.

ghost use Rattle.std.specs.Prelude.{◌≡◌, ◌++◌, option_map, IsErrOf, OnOk};
ghost use Rattle.grift_base.specs.Outside.{next_count};

use grift_base::lists::{CallList, OutOfMemory};
use grift_base::sinks::{DropSink, MemSink, Sink, SinkFault};
use std::alloc::Global;

// Puts the bytes twice, into any sink.
fn put_twice<O: Sink>(sink: &mut O, bytes: &[u8]) -> Result<(), SinkFault>
    ensures ok { OnOk result (
        O.written sink.new ≡ option_map (λ before. before ++ bytes.now ++ bytes.now) (O.written sink.old)) }
    ensures failed { IsErrOf result SinkFault.Failed → O.fault_count sink.new ≡ next_count (O.fault_count sink.old) }
{
    sink.put(bytes)?;
    sink.put(bytes)
}

// Bytes that are put twice into a sink whose third put fails, one row after another: the answer, and how many puts
// have failed then.
const PUTS: &[(&[u8], Result<(), SinkFault>, u64)] = &[
    (b"ab", Ok(()), 0),
    (b"c", Err(SinkFault::Failed), 1),
];

// Whether a sink keeps what is put, and nothing of a put that fails.
fn keeps(sink: &mut MemSink) -> bool {
    let mut all = true;
    for (bytes, wanted, faults) in PUTS {
        let put = put_twice(sink, bytes);
        all = all && (put, sink.faults()) == (*wanted, *faults);
    }
    all && sink.put(b"d") == Ok(()) && sink.bytes() == b"ababcd".as_slice()
}

// The same of a new sink.
fn new_sink_keeps(alloc: Global) -> Result<bool, OutOfMemory> {
    let failing = CallList::from_slice(alloc, &[3])?;
    let mut sink = MemSink::new(alloc, failing)?;
    Ok(keeps(&mut sink))
}

#[test]
fn keeps_bytes(rt: HostRuntime) {
    assert!(rt; matches!(new_sink_keeps(rt.alloc()), Ok(true)));
}

#[test]
fn drops_bytes(rt: HostRuntime) {
    let mut sink = DropSink::new();
    let put = put_twice(&mut sink, b"ab");
    assert!(rt; (put, sink.faults()) == (Ok(()), 0));
}
