//! The read of the record of a stream from its disk.

ghost use Rattle.std.specs.Prelude.{◌≡◌, IfOk, None, Some};
ghost use Rattle.cc_model.specs.Good.{IsGood};
ghost use Rattle.cc_model.specs.History.{history};
ghost use Rattle.cc_model.specs.Images.{open_of};
ghost use Rattle.cc_turns.specs.Disk.{DiskStands};
ghost use Rattle.cc_turns.specs.Standing.{nothing};
ghost use Rattle.cc_writes.specs.Fetch.{CanCall};
ghost use Rattle.cc_writes.specs.Hands.{Went, WentWith};
ghost use Rattle.cc_writes.specs.Ways.{IsFull};
ghost use Rattle.cc_records.specs.Left.{LoadLeft};
ghost use Rattle.cc_stored.specs.Stored.{IsKnownRecord, LoadEnds};
ghost use Rattle.cc_calls.specs.Logs.{IsNotFull};

use crate::visits::{place_held, reserve_one};
use cc_entry::{CcError, Entry, StreamId};
use cc_format::{StreamRecord, read_record};
use cc_traits::{PageDisk, Stop};
use cc_turns::Turns;
use cc_writes::give_back;

/// The page of a disk that has the record of its stream, past every data page.
pub(crate) const RECORD_PAGE: u64 = 1 << 51;

/// Reads the record of a stream from its disk; `None` exactly where the page of the record spells none. It is no Cc
/// routine: in Windows a file system reads the sizes of a file itself, before it initialises a cache map.
///
/// `ReadFault` (of page 2^51), `JournalFull`, `NoMemory`.
pub fn load_record<T: Turns>(
    turns: &mut T,
    stream: StreamId,
) -> Result<Option<StreamRecord>, CcError>
    requires can { CanCall (T.standing turns.old) stream }
    ensures ends { LoadEnds (T.standing turns.old) (T.standing turns.new) stream result }
{
    let mut disk = turns.take_device(stream);
    let loaded = load_held(turns, &mut disk, stream);
    turns.give_device(stream, disk);
    loaded
}

// The same with the disk in hand. Room for the entry of a failure is asked before the disk.
fn load_held<T: Turns>(
    turns: &mut T,
    disk: &mut T::Disk,
    stream: StreamId,
) -> Result<Option<StreamRecord>, CcError>
    requires held { (T.standing turns.old).held ≡ record nothing { device = Some stream } }
    requires none { (T.standing turns.old).in_flight ≡ 0 }
    requires rest { open_of (history (T.standing turns.old).seen stream) ≡ None }
    requires stands { DiskStands T.Disk.told T.Disk.faults ((T.standing turns.old).disks stream)
        (T.standing turns.old).seen stream disk.old }
    ensures stands { DiskStands T.Disk.told T.Disk.faults ((T.standing turns.new).disks stream)
        (T.standing turns.new).seen stream disk.new }
    ensures rest { open_of (history (T.standing turns.new).seen stream) ≡ None }
    ensures good { IsGood (T.standing turns.new).setup (T.standing turns.new).seen }
    ensures went { Went (T.standing turns.old) (T.standing turns.new) }
    ensures left { LoadLeft (T.standing turns.old).number stream result
        (T.standing turns.old).seen (T.standing turns.new).seen }
    ensures full { IsFull 1 (T.standing turns.new) result }
    ensures read { IfOk result (λ told. IsKnownRecord ((T.standing turns.old).disks stream).told stream
        (T.standing turns.new).seen told) }
{
    match reserve_one(turns) {
        Ok(()) => load_reserved(turns, disk, stream),
        Err(error) => Err(error),
    }
}

// The same with a place reserved, which is used or given back.
fn load_reserved<T: Turns>(
    turns: &mut T,
    disk: &mut T::Disk,
    stream: StreamId,
) -> Result<Option<StreamRecord>, CcError>
    requires held { (T.standing turns.old).held ≡ record nothing { device = Some stream } }
    requires reserved { (T.standing turns.old).in_flight ≡ 1 }
    requires rest { open_of (history (T.standing turns.old).seen stream) ≡ None }
    requires stands { DiskStands T.Disk.told T.Disk.faults ((T.standing turns.old).disks stream)
        (T.standing turns.old).seen stream disk.old }
    ensures stands { DiskStands T.Disk.told T.Disk.faults ((T.standing turns.new).disks stream)
        (T.standing turns.new).seen stream disk.new }
    ensures rest { open_of (history (T.standing turns.new).seen stream) ≡ None }
    ensures good { IsGood (T.standing turns.new).setup (T.standing turns.new).seen }
    ensures went { WentWith 0 (T.standing turns.old) (T.standing turns.new) }
    ensures left { LoadLeft (T.standing turns.old).number stream result
        (T.standing turns.old).seen (T.standing turns.new).seen }
    ensures room { IsNotFull result }
    ensures read { IfOk result (λ told. IsKnownRecord ((T.standing turns.old).disks stream).told stream
        (T.standing turns.new).seen told) }
{
    let mut page = [0; 4096];
    match disk.read_page(RECORD_PAGE, &mut page) {
        Ok(()) => {
            give_back(turns);
            Ok(read_record(&page))
        }
        Err(Stop::Failed) => {
            let pass = turns.me();
            place_held(turns, Entry::RecordFailed { pass, stream });
            Err(CcError::ReadFault { page: RECORD_PAGE })
        }
        Err(Stop::NoMemory) => {
            give_back(turns);
            Err(CcError::NoMemory)
        }
    }
}
