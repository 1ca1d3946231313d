//! A page is read from a disk, and transferred to one; and the disk is synced.

ghost use Rattle.std.specs.Prelude.{◌≡◌, ℕ, ◌+◌, true, List, ◌∷◌, OnOk};
ghost use Rattle.std.specs.declared.option.Option.TheVariants.{None};
ghost use Rattle.cc_entry.specs.declared.entry.Entry.{Entry};
ghost use Rattle.cc_entry.specs.declared.entry.Entry.TheVariants as entry;
ghost use Rattle.cc_traits.specs.Stop.{faults_in, OnFailed};
ghost use Rattle.cc_content.specs.Filling.{IsReadFrom};
ghost use Rattle.cc_model.specs.History.{history};
ghost use Rattle.cc_model.specs.Images.{open_of};
ghost use Rattle.cc_model.specs.Setup.{Setup};
ghost use Rattle.cc_model.specs.Turns.{Device, is_quiet};
ghost use Rattle.cc_turns.specs.Standing.{DiskAtFirst};
ghost use Rattle.cc_turns.specs.Disk.{DiskStands, opening_of};
ghost use Rattle.cc_turns.specs.Transfers.{CanRead, CanTransfer, TransferIsUnderWay, transfer_end, transfer_faults, fill_failed, synced, transferred};

use cc_entry::End;
use cc_traits::{PageDisk, Stop};

/// Reads a page into `raw`. What `raw` has where the disk stops is left open. Answers `Stop::Failed` where the disk
/// failed, whose count of faults rose by one, and `Stop::NoMemory` where it could not read for want of memory, or its
/// count of faults is at its end.
pub fn read<D: PageDisk>(disk: &mut D, page: u64, raw: &mut [u8; 4096]) -> Result<(), Stop>
    ensures found { OnOk result ((u : Setup) (first : DiskAtFirst) (past : List Entry) (s : ℕ) →
        CanRead D.told D.faults u first past s page disk.old →
        IsReadFrom (opening_of first.told) (history past s) page raw.new) }
    ensures kept { (first : DiskAtFirst) (past : List Entry) (s : ℕ) →
        DiskStands D.told D.faults first past s disk.old → DiskStands D.told D.faults first past s disk.new }
    ensures failed { OnFailed result ((first : DiskAtFirst) (past : List Entry) (s pass : ℕ) →
        DiskStands D.told D.faults first past s disk.old →
        DiskStands D.told D.faults first (fill_failed pass s page ∷ past) s disk.new) }
    ensures counted { D.faults disk.new ≡ D.faults disk.old + faults_in result }
{
    disk.read_page(page, raw)
}

/// Writes a page to the disk, and says how that ended. The bytes are those that the page had as its transfer began.
pub fn transfer<D: PageDisk>(disk: &mut D, page: u64, bytes: &[u8; 4096]) -> End
    ensures under_way { (first : DiskAtFirst) (past : List Entry) (pass s : ℕ) →
        TransferIsUnderWay D.told D.faults first past pass s page bytes.now disk.old →
        DiskStands D.told D.faults first (entry.WriteEnd pass (record { stream = s; page = page }) result ∷ past) s disk.new }
    ensures ended { (first : DiskAtFirst) (before later : List Entry) (s pass : ℕ) →
        CanTransfer D.told D.faults first before s page bytes.now disk.old → is_quiet (Device s) later ≡ true →
        DiskStands D.told D.faults first (transferred pass s page result later before) s disk.new }
    ensures counted { D.faults disk.new ≡ D.faults disk.old + transfer_faults result }
{
    end_of(disk.write_page(page, bytes))
}

/// Syncs the disk, and says how that ended.
pub fn sync<D: PageDisk>(disk: &mut D) -> End
    ensures ended { (first : DiskAtFirst) (past later : List Entry) (s pass : ℕ) →
        DiskStands D.told D.faults first past s disk.old → open_of (history past s) ≡ None →
        is_quiet (Device s) later ≡ true →
        DiskStands D.told D.faults first (synced pass s result later past) s disk.new }
    ensures counted { D.faults disk.new ≡ D.faults disk.old + transfer_faults result }
{
    end_of(disk.sync())
}

// how a transfer or a sync ended that the disk answered so
fn end_of(answered: Result<(), Stop>) -> End
    ensures { result ≡ transfer_end answered }
{
    match answered {
        Ok(()) => End::Good,
        Err(Stop::Failed) => End::Failed,
        Err(Stop::NoMemory) => End::NoMemory,
    }
}
