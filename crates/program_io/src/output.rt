// What a command has to say, to a sink.
ghost use Rattle.std.specs.Prelude.{◌≡◌, ◌<◌, ◌≤◌, length, take, drop, OnOk, OnErr};
ghost use Rattle.program_io.specs.Streams.{Rose, Takes, TakesFront};
ghost use Rattle.program_io.specs.Ends.{IsWritten};

use crate::answer::Answer;
use crate::sink::Sink;
use crate::source::Failed;
use crate::status::Status;

/// Writes what a command has to say whole, and tells how its run ends: `Done` behind its output, `Refused` behind the line that
/// says why it refuses the input, `WriteFault` where the sink failed, which took a front of it then.
pub fn write_answer<K: Sink>(sink: &mut K, answer: &Answer) -> Status
    ensures written { IsWritten answer.now (K.taken sink.old) (K.taken sink.new) result }
    ensures failed { result ≡ Status.WriteFault → Rose (K.faults sink.old) (K.faults sink.new) }
{
    match answer {
        Answer::Output(text) => match write_all(sink, text) {
            Ok(()) => Status::Done,
            Err(_) => Status::WriteFault,
        },
        Answer::FaultLine(text) => match write_all(sink, text) {
            Ok(()) => Status::Refused,
            Err(_) => Status::WriteFault,
        },
    }
}

// Writes a text whole. Where the sink fails, it took the front of it.
fn write_all<K: Sink>(sink: &mut K, text: &[u8]) -> Result<(), Failed>
    ensures all { OnOk result (Takes (K.taken sink.old) (K.taken sink.new) text.now) }
    ensures front { OnErr result (TakesFront (K.taken sink.old) (K.taken sink.new) text.now) }
    ensures failed { OnErr result (Rose (K.faults sink.old) (K.faults sink.new)) }
{
    let mut done = 0;
    while done < text.len() {
        let Ok(n) = sink.write(&text[done..]) else {
            return Err(Failed);
        };
        done += n;
    }
    Ok(())
}
