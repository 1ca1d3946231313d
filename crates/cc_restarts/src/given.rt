//! The streams that are given to the restart of a log, with the numbers of their records.

ghost use Rattle.std.specs.Prelude.{◌≡◌, ◌+◌, ◌≤◌, false, true, IfOk, IfErr, IfSome, IsNone, OnOk, OnErr, length};
ghost use Rattle.cc_redo.specs.Scanned.{IsRecordRefusal, disk_faults_by};
ghost use Rattle.cc_restarts.specs.Given.{AreRestartSizes, GivesRedo, GivenTo, IsRedoOf, is_restarted};
ghost use Rattle.cc_restarts.specs.Restarting.{RecordsRead, ReadingLeft, no_rise};

use cc_entry::CcError;
use cc_format::StreamRecord;
use cc_redo::{Redo, stored_record};
use cc_script::StreamLine;
use cc_traits::PageDisk;
use std::alloc::Global;

/// The streams that are given to the restart of a log, in their order. The record of each that is stored and has the log is read
/// for that.
pub(crate) fn given_to<D: PageDisk>(
    alloc: Global,
    streams: &[StreamLine],
    handle: u8,
    disks: &mut [D],
) -> Result<Vec<Redo>, CcError>
    requires enough { length streams.now ≤ length disks.old }
    requires few { length streams.now ≤ 16 }
    ensures given { IfOk result (λ given. GivenTo D.told disks.old handle 0 streams.now given.items) }
    ensures read { OnOk result (RecordsRead D.told D.faults handle streams.now no_rise disks.old disks.new) }
    ensures left { IfErr result (ReadingLeft D.told D.faults handle streams.now disks.old disks.new) }
{
    let mut given = Vec::new(alloc);
    let mut number = 0;
    for stream in streams {
        let disk = &mut disks[usize::from(number)];
        give_stream(number, stream, handle, disk, &mut given)?;
        number += 1;
    }
    Ok(given)
}

// Puts a stream behind those that are given, where it is to be, with the numbers of its record, which is read from its disk.
fn give_stream<D: PageDisk>(
    number: u8,
    stream: &StreamLine,
    handle: u8,
    disk: &mut D,
    given: &mut Vec<Redo>,
) -> Result<(), CcError>
    ensures gives { OnOk result (GivesRedo (D.told disk.old) handle number stream.now given.old.items given.new.items) }
    ensures stays { D.told disk.new ≡ D.told disk.old }
    ensures untouched { is_restarted handle stream.now ≡ false → disk.new ≡ disk.old }
    ensures refused { IfErr result IsRecordRefusal }
    ensures restarted { OnErr result (is_restarted handle stream.now ≡ true) }
    ensures counted { D.faults disk.new ≡ D.faults disk.old + disk_faults_by result }
{
    if !is_restarted(stream, handle) {
        return Ok(());
    }
    let read = stored_record(disk)?;
    if let Some(redo) = redo_of(number, stream, read) {
        given.push(redo)?;
    }
    Ok(())
}

// Whether a stream is stored and has the log.
fn is_restarted(stream: &StreamLine, handle: u8) -> bool
    ensures { result ≡ is_restarted handle stream.now }
{
    match stream.log {
        Some(log) => stream.stored && log == handle,
        None => false,
    }
}

// A stream with the numbers of its record, or else of its line, where they are sizes.
fn redo_of(number: u8, stream: &StreamLine, read: Option<StreamRecord>) -> Option<Redo>
    ensures some { IfSome result (IsRedoOf number stream.now read) }
    ensures none { IsNone result → AreRestartSizes stream.now read → ⊥ }
{
    let (size, valid) = match read {
        Some(told) => (told.size(), told.valid()),
        None => (stream.size, stream.valid),
    };
    if valid <= size && size < 1 << 63 {
        Some(Redo {
            stream: number,
            disk: number,
            size,
            valid,
        })
    } else {
        None
    }
}
