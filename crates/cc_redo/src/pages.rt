//! The pages of a stream as updates leave them, kept until each is written once.

ghost use Rattle.std.specs.Prelude.{◌≡◌, ◌≢◌, ℕ, ◌+◌, ◌*◌, ◌^◌, ◌<◌, ◌≤◌, true, false, None, is_some, [], ◌∷◌, length, IfOk, IfErr, OnOk};
ghost use Rattle.std.specs.BTreeMap.{get};
ghost use Rattle.std.specs.Ordering.{nat_cmp};
ghost use Rattle.cc_traits.specs.Told.{Both, IfTold};
ghost use Rattle.cc_traits.specs.Disk.{Disk};
ghost use Rattle.cc_redo.specs.Changes.{change_covers, is_changed, page_after};
ghost use Rattle.cc_redo.specs.Disks.{changed_page};
ghost use Rattle.cc_redo.specs.Heard.{redone_of};
ghost use Rattle.cc_redo.specs.Scanned.{HoldsMadePages, IsPagesRefusal, IsReadRefusal, IsWriteRefusal, IsPartlyWritten, KeepsData, disk_faults_by, page_with, write_refusal_of};

use crate::redo::Redo;
use crate::scan::{ReadEntry, change_in};
use cc_entry::CcError;
use cc_traits::{PageDisk, Stop};
use std::alloc::Global;
use std::collections::BTreeMap;

/// The bytes of a page.
const PAGE: u64 = 4096;

/// Writes into the pages of a stream what the entries from an LSN on say of it, in their order, and each page once. All
/// pages are read before the first is written.
pub(crate) fn redo_pages<D: PageDisk>(
    alloc: Global,
    disk: &mut D,
    redo: &Redo,
    from: u64,
    entries: &[ReadEntry],
) -> Result<(), CcError>
    ensures writing { Both (D.told disk.old) (D.told disk.new) (λ old new.
        IsPartlyWritten (changed_page (redone_of redo.now from entries.now) old) old new) }
    ensures written { OnOk result (Both (D.told disk.old) (D.told disk.new) (λ old new.
        HoldsMadePages (changed_page (redone_of redo.now from entries.now) old) new)) }
    ensures refused { IfErr result (IsPagesRefusal (redone_of redo.now from entries.now) (D.told disk.old) (D.told disk.new)) }
    ensures counted { D.faults disk.new ≡ D.faults disk.old + disk_faults_by result }
{
    let kept = changed_pages(alloc, disk, redo, from, entries)?;
    write_pages(disk, kept)
}

// The pages that the entries from an LSN on change, as they leave them.
fn changed_pages<D: PageDisk>(
    alloc: Global,
    disk: &mut D,
    redo: &Redo,
    from: u64,
    entries: &[ReadEntry],
) -> Result<BTreeMap<u64, [u8; 4096]>, CcError>
    ensures changed { IfOk result (λ kept. IfTold (D.told disk.old) (λ told. (page : ℕ) →
        page_with kept told page ≡ changed_page (redone_of redo.now from entries.now) told page)) }
    ensures keeps { IfOk result KeepsData }
    ensures apart { IfOk result (λ kept. (page : ℕ) → is_changed (redone_of redo.now from entries.now) page ≡ false →
        get nat_cmp kept page ≡ None) }
    ensures stays { D.told disk.new ≡ D.told disk.old }
    ensures refused { IfErr result (IsReadRefusal (λ page. is_changed (redone_of redo.now from entries.now) page ≡ true)) }
    ensures counted { D.faults disk.new ≡ D.faults disk.old + disk_faults_by result }
{
    let mut kept = BTreeMap::new(alloc);
    for entry in entries {
        if entry.lsn >= from {
            if let Some((at, bytes)) = change_in(&entry.says, redo) {
                change_pages(disk, &mut kept, at, bytes)?;
            }
        }
    }
    Ok(kept)
}

// The same of one change.
fn change_pages<D: PageDisk>(
    disk: &mut D,
    kept: &mut BTreeMap<u64, [u8; 4096]>,
    at: u64,
    bytes: &[u8],
) -> Result<(), CcError>
    requires below { at + length bytes.now < 2 ^ 63 }
    requires keeps { KeepsData kept.old }
    ensures changed { OnOk result (IfTold (D.told disk.old) (λ told. (page : ℕ) →
        page_with kept.new told page
        ≡ page_after (record { at = at; bytes = bytes.now } ∷ []) page (page_with kept.old told page))) }
    ensures keeps { KeepsData kept.new }
    ensures apart { OnOk result ((page : ℕ) → change_covers (record { at = at; bytes = bytes.now }) page ≡ false →
        get nat_cmp kept.new page ≡ get nat_cmp kept.old page) }
    ensures stays { D.told disk.new ≡ D.told disk.old }
    ensures refused { IfErr result (IsReadRefusal (λ page. change_covers (record { at = at; bytes = bytes.now }) page ≡ true)) }
    ensures counted { D.faults disk.new ≡ D.faults disk.old + disk_faults_by result }
{
    if bytes.is_empty() {
        return Ok(());
    }
    let last = (at + bytes.len() as u64 - 1) / PAGE;
    for page in at / PAGE..last + 1 {
        change_page(disk, kept, page, at, bytes)?;
    }
    Ok(())
}

// The same of one page that the change covers a byte of.
fn change_page<D: PageDisk>(
    disk: &mut D,
    kept: &mut BTreeMap<u64, [u8; 4096]>,
    page: u64,
    at: u64,
    bytes: &[u8],
) -> Result<(), CcError>
    requires below { at + length bytes.now < 2 ^ 63 }
    requires begins { at < 4096 * page + 4096 }
    requires ends { 4096 * page < at + length bytes.now }
    requires keeps { KeepsData kept.old }
    ensures changed { OnOk result (IfTold (D.told disk.old) (λ told. page_with kept.new told page
        ≡ page_after (record { at = at; bytes = bytes.now } ∷ []) page (page_with kept.old told page))) }
    ensures others { (told : Disk) (other : ℕ) → other ≢ page → page_with kept.new told other ≡ page_with kept.old told other }
    ensures keeps { KeepsData kept.new }
    ensures apart { (other : ℕ) → other ≢ page → get nat_cmp kept.new other ≡ get nat_cmp kept.old other }
    ensures stays { D.told disk.new ≡ D.told disk.old }
    ensures refused { IfErr result (IsReadRefusal (λ failed. failed ≡ page)) }
    ensures counted { D.faults disk.new ≡ D.faults disk.old + disk_faults_by result }
{
    let mut content = content_of(disk, kept, page)?;
    patch(&mut content, page, at, bytes);
    kept.insert(page, content)?;
    Ok(())
}

// A page as it is kept, or else as the disk holds it.
fn content_of<D: PageDisk>(
    disk: &mut D,
    kept: &BTreeMap<u64, [u8; 4096]>,
    page: u64,
) -> Result<[u8; 4096], CcError>
    ensures content { IfOk result (λ content. IfTold (D.told disk.old) (λ told.
        content ≡ page_with kept.now told page)) }
    ensures stays { D.told disk.new ≡ D.told disk.old }
    ensures refused { IfErr result (IsReadRefusal (λ failed. failed ≡ page)) }
    ensures counted { D.faults disk.new ≡ D.faults disk.old + disk_faults_by result }
{
    if let Some(content) = kept.get(&page) {
        return Ok(*content);
    }
    let mut content = [0; 4096];
    match disk.read_page(page, &mut content) {
        Ok(()) => Ok(content),
        Err(Stop::Failed) => Err(CcError::ReadFault { page }),
        Err(Stop::NoMemory) => Err(CcError::NoMemory),
    }
}

// Puts into a page what a change has of it.
fn patch(content: &mut [u8; 4096], page: u64, at: u64, bytes: &[u8])
    requires below { at + length bytes.now < 2 ^ 63 }
    requires begins { at < 4096 * page + 4096 }
    requires ends { 4096 * page < at + length bytes.now }
    ensures { content.new ≡ page_after (record { at = at; bytes = bytes.now } ∷ []) page content.old }
{
    let begin = PAGE * page;
    let from = at.max(begin);
    let to = (at + bytes.len() as u64).min(begin + PAGE);
    let piece = &bytes[(from - at) as usize..(to - at) as usize];
    content[(from - begin) as usize..(to - begin) as usize].copy_from_slice(piece);
}

// Writes the pages that are kept, each once.
fn write_pages<D: PageDisk>(disk: &mut D, kept: BTreeMap<u64, [u8; 4096]>) -> Result<(), CcError>
    requires keeps { KeepsData kept }
    ensures writing { Both (D.told disk.old) (D.told disk.new) (λ old new. IsPartlyWritten (page_with kept old) old new) }
    ensures written { OnOk result (Both (D.told disk.old) (D.told disk.new) (λ old new. HoldsMadePages (page_with kept old) new)) }
    ensures refused { IfErr result (IsWriteRefusal (λ page. is_some (get nat_cmp kept page) ≡ true)) }
    ensures counted { D.faults disk.new ≡ D.faults disk.old + disk_faults_by result }
{
    let mut left = kept;
    while let Some(first) = left.pop_first() {
        let page = first.0;
        let content = first.1;
        match disk.write_page(page, &content) {
            Ok(()) => (),
            Err(stop) => return Err(write_refusal(page, stop)),
        }
    }
    Ok(())
}

/// What a restart answers whose disk stopped at a write of a page, or at a sync that it tells so.
pub(crate) fn write_refusal(page: u64, stop: Stop) -> CcError
    ensures { result ≡ write_refusal_of page stop }
{
    match stop {
        Stop::Failed => CcError::WriteFault { page },
        Stop::NoMemory => CcError::NoMemory,
    }
}
