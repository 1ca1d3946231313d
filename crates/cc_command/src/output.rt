//! The text goes to the sink, piece by piece, until all of it is taken or the sink fails.

ghost use Rattle.std.specs.Prelude.{◌≡◌, ◌<◌, ◌⊎◌, OnOk, IsErrOf};
ghost use Rattle.cc_traits.specs.Told.{Both, SinkTook};
ghost use Rattle.cc_command.specs.Taken.{TookPart};
ghost use Rattle.cc_command.specs.declared.output.OutputError.TheVariants as unput;

use cc_traits::{Sink, Stop};

/// Why a text was not put out whole.
#[derive(Clone, Copy)]
pub enum OutputError {
    /// The sink failed, or took nothing where there were bytes.
    Failed,
    /// No memory was found; what was put before is out.
    NoMemory,
}

/// Puts the whole text out.
///
/// `Failed` where the sink failed, or took nothing where there were bytes; `NoMemory`. In both cases it took no more
/// than a first part of the text.
pub fn put_all<K: Sink>(sink: &mut K, text: &[u8]) -> Result<(), OutputError>
    ensures whole { OnOk result (Both (K.told sink.old) (K.told sink.new) (SinkTook text.now)) }
    ensures part { Both (K.told sink.old) (K.told sink.new) (TookPart text.now) }
    ensures failed { IsErrOf result OutputError.Failed → (K.faults sink.old < K.faults sink.new) ⊎ (K.stalls sink.old < K.stalls sink.new) }
    ensures calm { OnOk result (K.faults sink.new ≡ K.faults sink.old) }
{
    let mut rest = text;
    while !rest.is_empty() {
        match sink.put(rest) {
            Ok(0) => return Err(OutputError::Failed),
            Ok(taken) => rest = &rest[taken..],
            Err(Stop::Failed) => return Err(OutputError::Failed),
            Err(Stop::NoMemory) => return Err(OutputError::NoMemory),
        }
    }
    Ok(())
}
