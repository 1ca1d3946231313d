//! The record of a stream, read from its disk before the stream is restarted.

ghost use Rattle.std.specs.Prelude.{◌≡◌, ◌+◌, ◌^◌, IfOk, IfErr};
ghost use Rattle.cc_format.specs.Spelling.{IsReadAs};
ghost use Rattle.cc_traits.specs.Disk.{page_of};
ghost use Rattle.cc_traits.specs.Told.{IfTold};
ghost use Rattle.cc_redo.specs.Disks.{record_number};
ghost use Rattle.cc_redo.specs.Scanned.{IsRecordRefusal, disk_faults_by};

use crate::settle::RECORD_PAGE;
use cc_entry::CcError;
use cc_format::{StreamRecord, read_record};
use cc_traits::{PageDisk, Stop};

/// Reads the record of a stream from its disk; `None` exactly where the page of the record spells none.
///
/// `ReadFault` (of page 2^51), `NoMemory`.
pub fn stored_record<D: PageDisk>(disk: &mut D) -> Result<Option<StreamRecord>, CcError>
    ensures read { IfOk result (λ told. IfTold (D.told disk.old) (λ was. IsReadAs (page_of was record_number) told)) }
    ensures stays { D.told disk.new ≡ D.told disk.old }
    ensures refused { IfErr result IsRecordRefusal }
    ensures counted { D.faults disk.new ≡ D.faults disk.old + disk_faults_by result }
{
    let mut page = [0; 4096];
    match disk.read_page(RECORD_PAGE, &mut page) {
        Ok(()) => Ok(read_record(&page)),
        Err(Stop::Failed) => Err(CcError::ReadFault { page: RECORD_PAGE }),
        Err(Stop::NoMemory) => Err(CcError::NoMemory),
    }
}
