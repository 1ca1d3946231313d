//! The bytes of the script, from the source.

ghost use Rattle.std.specs.Prelude.{◌≡◌, ◌<◌, ◌≤◌, ◌+◌, true, [], ◌++◌, length, IfOk, OnOk, IsErrOf, vec_len};
ghost use Rattle.cc_traits.specs.Told.{IfTold};
ghost use Rattle.cc_command.specs.Taken.{WasTaken};
ghost use Rattle.cc_command.specs.declared.intake.IntakeError.TheVariants as unread;

use cc_traits::{Source, Stop};
use std::alloc::Global;

/// The most bytes of a script.
const MOST: usize = 16777216;

/// Why the bytes were not taken.
#[derive(Clone, Copy)]
pub enum IntakeError {
    /// The source failed.
    Failed,
    /// The script has more bytes than a script may have.
    TooLong,
    /// No memory was found; the bytes that were taken are lost.
    NoMemory,
}

/// All the bytes up to the source's end.
///
/// `Failed` where the source failed, `TooLong` where there are more than 16777216 bytes, `NoMemory`.
pub fn take_all<S: Source>(alloc: Global, source: &mut S) -> Result<Vec<u8>, IntakeError>
    ensures all { IfOk result (λ bytes. IfTold (S.told source.old) (λ left. bytes.items ≡ left)) }
    ensures gave { IfOk result (λ bytes. S.given source.new ≡ S.given source.old ++ bytes.items) }
    ensures ended { OnOk result (S.ended source.new ≡ true) }
    ensures end { OnOk result (IfTold (S.told source.new) (λ rest. rest ≡ [])) }
    ensures no_fault { OnOk result (S.faults source.new ≡ S.faults source.old) }
    ensures failed { IsErrOf result IntakeError.Failed → S.faults source.old < S.faults source.new }
    ensures few { OnOk result (length (S.given source.new) ≤ length (S.given source.old) + 16777216) }
    ensures few_at_fault { IsErrOf result IntakeError.Failed →
        length (S.given source.new) ≤ length (S.given source.old) + 16777216 }
    ensures long { IsErrOf result IntakeError.TooLong → length (S.given source.old) + 16777216 < length (S.given source.new) }
    ensures bounded { length (S.given source.new) ≤ length (S.given source.old) + 16777217 }
    ensures given { WasTaken (S.told source.old) (S.told source.new) (S.given source.old) (S.given source.new) }
{
    let mut bytes = Vec::new(alloc);
    let mut buffer = [0; 4096];
    for _ in 0..MOST + 2 {
        let room = (MOST + 1 - bytes.len()).min(buffer.len());
        let taken = match source.take(&mut buffer[..room]) {
            Ok(taken) => taken,
            Err(Stop::Failed) => return Err(IntakeError::Failed),
            Err(Stop::NoMemory) => return Err(IntakeError::NoMemory),
        };
        if taken == 0 {
            return Ok(bytes);
        }
        if bytes.extend_from_slice(&buffer[..taken]).is_err() {
            return Err(IntakeError::NoMemory);
        }
        if bytes.len() > MOST {
            return Err(IntakeError::TooLong);
        }
    }
    Err(IntakeError::NoMemory)
}
