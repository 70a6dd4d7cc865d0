ghost use Rattle.std.specs.Prelude.{◌≡◌, ◌<◌, ◌≤◌, [], length, take, OnErr, OnOk};
ghost use Rattle.std.specs.Io.KnownBytes.{Appends};
ghost use Rattle.design_io.specs.Faults.{HasCause, counted};
ghost use Rattle.design_io.specs.Pieces.{AppendsWhole};

use crate::{Failed, Sink};

/// Appends bytes until all are taken or a write fails, and says how many were taken. The write that fails counts as one
/// fault. Of no bytes nothing is written.
pub(crate) fn write_front<K: Sink>(sink: &mut K, bytes: &[u8]) -> (usize, Result<(), Failed>)
    ensures within { result.0 ≤ length bytes.now }
    ensures whole { OnOk result.1 (result.0 ≡ length bytes.now) }
    ensures part { OnErr result.1 (result.0 < length bytes.now) }
    ensures bytes { Appends (K.held sink.old) (K.held sink.new) (take result.0 bytes.now) }
    ensures cause { HasCause (K.faults sink.old) (K.faults sink.new) result.1 }
    ensures kept { OnOk result.1 (K.faults sink.new ≡ K.faults sink.old) }
    ensures failed { OnErr result.1 (K.faults sink.new ≡ counted (K.faults sink.old)) }
    ensures none { bytes.now ≡ [] → sink.new ≡ sink.old }
{
    let mut at = 0;
    while at < bytes.len() {
        match sink.write(&bytes[at..]) {
            Ok(count) => at += count,
            Err(failed) => return (at, Err(failed)),
        }
    }
    (at, Ok(()))
}

/// Appends all of the bytes. It fails at the first write that fails, which counts as one fault, and a
/// proper prefix of the bytes was appended then. Of no bytes nothing is written.
pub fn write_whole<K: Sink>(sink: &mut K, bytes: &[u8]) -> Result<(), Failed>
    ensures bytes { AppendsWhole (K.held sink.old) (K.held sink.new) result bytes.now }
    ensures cause { HasCause (K.faults sink.old) (K.faults sink.new) result }
    ensures kept { OnOk result (K.faults sink.new ≡ K.faults sink.old) }
    ensures failed { OnErr result (K.faults sink.new ≡ counted (K.faults sink.old)) }
    ensures none { bytes.now ≡ [] → sink.new ≡ sink.old }
{
    let (_count, end) = write_front(sink, bytes);
    end
}
