//! A disk is synced, the record of its stream written, and the disk synced again.

ghost use Rattle.std.specs.Prelude.{◌≡◌, ◌+◌, ◌≤◌, ◌<◌, ◌^◌, ◌⊎◌, IfErr, OnOk, OnErr};
ghost use Rattle.cc_traits.specs.Disk.{Settled, WriteFailed, Wrote};
ghost use Rattle.cc_traits.specs.Told.{Both};
ghost use Rattle.cc_model.specs.Records.{record_page};
ghost use Rattle.cc_redo.specs.Disks.{record_number};
ghost use Rattle.cc_redo.specs.Scanned.{DiskIsSettled, IsSettleRefusal, IsSettling, IsWriteRefusal, disk_faults_by};

use crate::pages::write_refusal;
use cc_entry::CcError;
use cc_format::{StreamRecord, write_record};
use cc_traits::PageDisk;

/// The page of a disk that has the record of its stream, past every data page.
pub(crate) const RECORD_PAGE: u64 = 1 << 51;

/// Syncs a disk, writes the record of its stream, and syncs it again. The first sync tells of its failure as page 0, the
/// write of the record and the sync behind it as the page of the record.
pub(crate) fn settle_record<D: PageDisk>(disk: &mut D, size: u64, valid: u64) -> Result<(), CcError>
    requires within { valid ≤ size }
    requires in_range { size < 2 ^ 63 }
    ensures settling { Both (D.told disk.old) (D.told disk.new) (λ old new.
        (new ≡ old) ⊎ IsSettling (record_page size valid) old new) }
    ensures settled { OnOk result (Both (D.told disk.old) (D.told disk.new) (DiskIsSettled (record_page size valid))) }
    ensures refused { IfErr result (IsSettleRefusal (D.told disk.old) (D.told disk.new)) }
    ensures counted { D.faults disk.new ≡ D.faults disk.old + disk_faults_by result }
{
    sync(disk, 0)?;
    write_told(disk, size, valid)?;
    sync(disk, RECORD_PAGE)
}

// Writes the record of a stream.
fn write_told<D: PageDisk>(disk: &mut D, size: u64, valid: u64) -> Result<(), CcError>
    requires within { valid ≤ size }
    requires in_range { size < 2 ^ 63 }
    ensures wrote { OnOk result (Both (D.told disk.old) (D.told disk.new) (Wrote record_number (record_page size valid))) }
    ensures err { OnErr result (Both (D.told disk.old) (D.told disk.new) (λ old new.
        (new ≡ old) ⊎ WriteFailed record_number (record_page size valid) old new)) }
    ensures refused { IfErr result (IsWriteRefusal (λ failed. failed ≡ record_number)) }
    ensures counted { D.faults disk.new ≡ D.faults disk.old + disk_faults_by result }
{
    let mut page = [0; 4096];
    write_record(StreamRecord::V2 { size, valid }, &mut page);
    match disk.write_page(RECORD_PAGE, &page) {
        Ok(()) => Ok(()),
        Err(stop) => Err(write_refusal(RECORD_PAGE, stop)),
    }
}

// Syncs a disk, and tells of its failure as a page.
fn sync<D: PageDisk>(disk: &mut D, page: u64) -> Result<(), CcError>
    ensures settled { OnOk result (Both (D.told disk.old) (D.told disk.new) Settled) }
    ensures err { OnErr result (D.told disk.new ≡ D.told disk.old) }
    ensures refused { IfErr result (IsWriteRefusal (λ failed. failed ≡ page)) }
    ensures counted { D.faults disk.new ≡ D.faults disk.old + disk_faults_by result }
{
    match disk.sync() {
        Ok(()) => Ok(()),
        Err(stop) => Err(write_refusal(page, stop)),
    }
}
