//! Tests of disks and logs over files of the folder in which the tests run.
//!
//! What is asked of a device stands in functions over its trait: a test that asked all itself would be proved once for
//! each point at which it may end.

use cc_filedev::{FileDisk, FileLog, FolderFile};
use cc_traits::{LogFile, PageDisk, Stop};
use std::alloc::{AllocError, Global};
use std::fs;
use std::fs::Files;
use std::os::unix::fs::FileExt;
use std::test::Fail;

/// Two entries, as a log's file has them.
const TWO: &[u8] = b"\x01\0\0\0\0\0\0\0\x02\0\0\0\x0A\x0B\x02\0\0\0\0\0\0\0\0\0\0\0";

/// Log `k` over the folder.
fn file_log<R: Files + Copy + Drop>(
    alloc: Global,
    files: R,
    k: u8,
) -> Result<FileLog<FolderFile<R>>, AllocError>
where
    R::File: FileExt,
{
    Ok(FileLog::new(alloc, FolderFile::of_log(alloc, files, "", k)?))
}

/// Whether the `n`-th entry of a log is this one, or there is none.
fn has<L: LogFile>(log: &mut L, n: u64, wanted: Option<(u64, &[u8])>, out: &mut Vec<u8>) -> bool {
    match (log.entry(n, out), wanted) {
        (Ok(Some(lsn)), Some((same, bytes))) => lsn == same && out.as_slice() == bytes,
        (Ok(None), None) => true,
        _ => false,
    }
}

/// Whether a log has the two entries, and no more.
fn has_two<L: LogFile>(log: &mut L, out: &mut Vec<u8>) -> bool {
    has(log, 0, Some((1, b"\x0A\x0B")), out)
        && has(log, 1, Some((2, b"")), out)
        && has(log, 2, None, out)
}

/// Appends the two entries.
fn append_two<L: LogFile>(log: &mut L) -> Result<(), Stop> {
    log.append(1, b"\x0A\x0B")?;
    log.append(2, b"")
}

/// Whether a log has the first of the two entries alone, and behind an append that one and the appended.
fn goes_on<L: LogFile>(log: &mut L, out: &mut Vec<u8>) -> Result<bool, Stop> {
    let begins = has(log, 0, Some((1, b"\x0A\x0B")), out) && has(log, 1, None, out);
    log.append(7, b"\x0C")?;
    Ok(begins && has(log, 1, Some((7, b"\x0C")), out) && has(log, 2, None, out))
}

#[test]
fn a_log_over_a_file_keeps_its_entries(rt: HostRuntime) -> Result<(), Fail> {
    let mut log = file_log(rt.alloc(), rt, 2)?;
    assert_eq!(rt; append_two(&mut log), Ok(()));
    assert_eq!(rt; fs::read(&rt, "2.log")?.as_slice(), TWO);
    Ok(())
}

#[test]
fn a_log_over_a_file_gives_its_entries(rt: HostRuntime) -> Result<(), Fail> {
    fs::write(&rt, "3.log", TWO)?;
    let mut log = file_log(rt.alloc(), rt, 3)?;
    let mut out = Vec::new(rt.alloc());
    assert!(rt; has_two(&mut log, &mut out));
    assert_eq!(rt; log.faults(), 0);
    Ok(())
}

#[test]
fn a_log_goes_on_behind_its_last_whole_entry(rt: HostRuntime) -> Result<(), Fail> {
    // The second entry lacks its last byte.
    fs::write(&rt, "4.log", &TWO[..25])?;
    let mut log = file_log(rt.alloc(), rt, 4)?;
    let mut out = Vec::new(rt.alloc());
    assert_eq!(rt; goes_on(&mut log, &mut out), Ok(true));
    assert_eq!(rt; log.faults(), 0);
    Ok(())
}

/// The first and the last byte of a page.
fn ends<D: PageDisk>(disk: &mut D, page: u64) -> Result<(u8, u8), Stop> {
    let mut out = [9; 4096];
    disk.read_page(page, &mut out)?;
    Ok((out[0], out[4095]))
}

/// Whether a page begins and ends with these bytes.
fn is_within<D: PageDisk>(disk: &mut D, page: u64, wanted: (u8, u8)) -> bool {
    ends(disk, page) == Ok(wanted)
}

fn write<D: PageDisk>(disk: &mut D, page: u64, byte: u8) -> Result<(), Stop> {
    disk.write_page(page, &[byte; 4096])?;
    disk.sync()
}

/// The page past every page of a file of pages.
const RECORD_PAGE: u64 = 1 << 51;

/// Writes a page, and the record's.
fn write_both<D: PageDisk>(disk: &mut D) -> Result<(), Stop> {
    write(disk, 1, 34)?;
    write(disk, RECORD_PAGE, 51)
}

/// Whether a disk has the opening page, both pages that are written, and no page past the record's.
fn has_both<D: PageDisk>(disk: &mut D) -> bool {
    is_within(disk, 0, (17, 17))
        && is_within(disk, 1, (34, 34))
        && is_within(disk, RECORD_PAGE, (51, 51))
        && ends(disk, RECORD_PAGE + 1) == Err(Stop::Failed)
}

/// Whether a disk has a whole page, a part of one with zeros behind it, and zeros behind that.
fn has_a_part<D: PageDisk>(disk: &mut D) -> bool {
    is_within(disk, 0, (17, 17)) && is_within(disk, 1, (17, 0)) && is_within(disk, 2, (0, 0))
}

/// The disk of stream `k` over the folder.
fn file_disk<R: Files + Copy + Drop>(
    alloc: Global,
    files: R,
    k: u8,
) -> Result<FileDisk<FolderFile<R>>, AllocError>
where
    R::File: FileExt,
{
    let pages = FolderFile::of_disk(alloc, files, "", k)?;
    let record = FolderFile::of_record(alloc, files, "", k)?;
    Ok(FileDisk::new(pages, record))
}

#[test]
fn a_disk_over_a_file_ends_in_zeros(rt: HostRuntime) -> Result<(), Fail> {
    let bytes = vec![in rt.alloc(); 17; 5000]?;
    fs::write(&rt, "3.dat", bytes.as_slice())?;
    let mut disk = file_disk(rt.alloc(), rt, 3)?;
    assert!(rt; has_a_part(&mut disk));
    Ok(())
}

#[test]
fn a_disk_over_files_keeps_pages(rt: HostRuntime) -> Result<(), Fail> {
    let bytes = vec![in rt.alloc(); 17; 4096]?;
    fs::write(&rt, "2.dat", bytes.as_slice())?;
    let mut disk = file_disk(rt.alloc(), rt, 2)?;
    assert_eq!(rt; write_both(&mut disk), Ok(()));
    assert_eq!(rt; fs::read(&rt, "2.dat")?.len(), 8192);
    assert_eq!(rt; fs::read(&rt, "2.rec")?.len(), 4096);
    Ok(())
}

#[test]
fn another_disk_over_the_files_has_the_pages(rt: HostRuntime) -> Result<(), Fail> {
    let bytes = vec![in rt.alloc(); 17; 4096]?;
    fs::write(&rt, "4.dat", bytes.as_slice())?;
    let mut disk = file_disk(rt.alloc(), rt, 4)?;
    assert_eq!(rt; write_both(&mut disk), Ok(()));
    let mut later = file_disk(rt.alloc(), rt, 4)?;
    assert!(rt; has_both(&mut later));
    assert_eq!(rt; (disk.faults(), later.faults()), (0, 1));
    Ok(())
}
