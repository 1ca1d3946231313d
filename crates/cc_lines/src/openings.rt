//! The line of a stream, which opens the stream before the first action, over any turns.

ghost use Rattle.std.specs.Prelude.{◌≡◌, ◌<◌, Some, true};
ghost use Rattle.cc_pieces.specs.Openings.{LoggedOpening, MigrationLeft, RecordedOpening, StreamOpening, opening_with, said_sizes};
ghost use Rattle.cc_format.specs.declared.record.StreamRecord.TheVariants.{V1};
ghost use Rattle.cc_turns.specs.Disk.{opening_of};
ghost use Rattle.cc_calls.specs.Answers.{CanCall};
ghost use Rattle.cc_calls.specs.Pages.{WentOn};
ghost use Rattle.cc_lines.specs.Line.{IsFullTold, told_answer};

use crate::line::answered;
use cc_calls::{initialize, set_log_handle};
use cc_entry::{Answer, CcError, FileId, FileSizes, StreamId};
use cc_format::StreamRecord;
use cc_script::StreamLine;
use cc_stored::{load_record, settle};
use cc_turns::Turns;
use std::alloc::Global;

/// Makes the calls of a stream's line: of one that is stored its record is read; its first file object is initialised, with
/// the sizes of the record, or else those that the line says, of which the size is the allocation too; it gets its log, where
/// the line names one; and where its record is of the first version, it is settled, which writes one of the second. Where
/// a call is refused, no further one is made.
pub fn open_stream<T: Turns>(
    alloc: Global,
    turns: &mut T,
    number: u8,
    stream: &StreamLine,
) -> Answer
    requires can { CanCall (T.standing turns.old) number }
    requires first { (T.standing turns.old).number ≡ 0 }
    requires few { number < 16 }
    requires told { (T.standing turns.old).setup.opening number
        ≡ opening_of ((T.standing turns.old).disks number).told }
    ensures opened { StreamOpening (T.standing turns.old).setup number stream.now stream.now.stored result
        (T.standing turns.old).seen (T.standing turns.new).seen }
    ensures full { IsFullTold (T.standing turns.new) result }
    ensures goes_on { WentOn (T.standing turns.old) (T.standing turns.new) }
{
    if stream.stored {
        answered(open_stored(alloc, turns, number, stream))
    } else {
        answered(open_logged(alloc, turns, number, stream, said_sizes(stream)))
    }
}

// The sizes that a stream's line says.
fn said_sizes(stream: &StreamLine) -> FileSizes
    ensures { result ≡ said_sizes stream.now }
{
    FileSizes {
        allocation: stream.size,
        size: stream.size,
        valid: stream.valid,
    }
}

// Initialises the first file object of a stream with these sizes, and then gives the stream its log, where the line names one.
fn open_logged<T: Turns>(
    alloc: Global,
    turns: &mut T,
    number: u8,
    stream: &StreamLine,
    sizes: FileSizes,
) -> Result<(), CcError>
    requires can { CanCall (T.standing turns.old) number }
    requires first { (T.standing turns.old).number ≡ 0 }
    requires few { number < 16 }
    ensures opened { LoggedOpening (T.standing turns.old).setup number (opening_with number stream.now sizes) stream.now.log
        (told_answer result) (T.standing turns.old).seen (T.standing turns.new).seen }
    ensures full { IsFullTold (T.standing turns.new) (told_answer result) }
    ensures goes_on { WentOn (T.standing turns.old) (T.standing turns.new) }
{
    let file = FileId::new(number, 0).unwrap();
    if let Err(error) = initialize(alloc, turns, file, sizes, stream.quota, stream.temporary) {
        return Err(error);
    }
    match stream.log {
        Some(handle) => set_log_handle(alloc, turns, file, handle),
        None => Ok(()),
    }
}

// Opens a stream with the sizes of its record.
fn open_stored<T: Turns>(
    alloc: Global,
    turns: &mut T,
    number: u8,
    stream: &StreamLine,
) -> Result<(), CcError>
    requires can { CanCall (T.standing turns.old) number }
    requires first { (T.standing turns.old).number ≡ 0 }
    requires few { number < 16 }
    requires told { (T.standing turns.old).setup.opening number
        ≡ opening_of ((T.standing turns.old).disks number).told }
    ensures opened { StreamOpening (T.standing turns.old).setup number stream.now true (told_answer result)
        (T.standing turns.old).seen (T.standing turns.new).seen }
    ensures full { IsFullTold (T.standing turns.new) (told_answer result) }
    ensures goes_on { WentOn (T.standing turns.old) (T.standing turns.new) }
{
    let id = StreamId::new(number).unwrap();
    match load_record(turns, id) {
        Ok(told) => open_recorded(alloc, turns, number, stream, told),
        Err(error) => Err(error),
    }
}

// The same where the record was read so.
fn open_recorded<T: Turns>(
    alloc: Global,
    turns: &mut T,
    number: u8,
    stream: &StreamLine,
    told: Option<StreamRecord>,
) -> Result<(), CcError>
    requires can { CanCall (T.standing turns.old) number }
    requires first { (T.standing turns.old).number ≡ 0 }
    requires few { number < 16 }
    ensures opened { RecordedOpening (T.standing turns.old).setup number stream.now told (told_answer result)
        (T.standing turns.old).seen (T.standing turns.new).seen }
    ensures full { IsFullTold (T.standing turns.new) (told_answer result) }
    ensures goes_on { WentOn (T.standing turns.old) (T.standing turns.new) }
{
    match told {
        Some(StreamRecord::V1 { size }) => open_first_version(alloc, turns, number, stream, size),
        Some(StreamRecord::V2 { size, valid }) => {
            let sizes = FileSizes {
                allocation: size,
                size,
                valid,
            };
            open_logged(alloc, turns, number, stream, sizes)
        }
        None => open_logged(alloc, turns, number, stream, said_sizes(stream)),
    }
}

// The same where it is of the first version, which the stream is settled for.
fn open_first_version<T: Turns>(
    alloc: Global,
    turns: &mut T,
    number: u8,
    stream: &StreamLine,
    size: u64,
) -> Result<(), CcError>
    requires can { CanCall (T.standing turns.old) number }
    requires first { (T.standing turns.old).number ≡ 0 }
    requires few { number < 16 }
    ensures opened { RecordedOpening (T.standing turns.old).setup number stream.now (Some (V1 size)) (told_answer result)
        (T.standing turns.old).seen (T.standing turns.new).seen }
    ensures full { IsFullTold (T.standing turns.new) (told_answer result) }
    ensures goes_on { WentOn (T.standing turns.old) (T.standing turns.new) }
{
    let sizes = FileSizes {
        allocation: size,
        size,
        valid: size,
    };
    match open_logged(alloc, turns, number, stream, sizes) {
        Ok(()) => migrate(alloc, turns, number),
        Err(error) => Err(error),
    }
}

// Settles a stream behind its opening.
fn migrate<T: Turns>(alloc: Global, turns: &mut T, number: u8) -> Result<(), CcError>
    requires can { CanCall (T.standing turns.old) number }
    requires first { (T.standing turns.old).number ≡ 0 }
    requires few { number < 16 }
    ensures left { MigrationLeft (T.standing turns.old).setup number (told_answer result)
        (T.standing turns.old).seen (T.standing turns.new).seen }
    ensures full { IsFullTold (T.standing turns.new) (told_answer result) }
    ensures goes_on { WentOn (T.standing turns.old) (T.standing turns.new) }
{
    let file = FileId::new(number, 0).unwrap();
    match settle(alloc, turns, file) {
        Ok(_) => Ok(()),
        Err(error) => Err(error),
    }
}
