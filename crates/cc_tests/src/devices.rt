//! Tests of the devices in memory, and the traits of what is outside.
//!
//! Each device is used through its trait, as the cache uses it.

ghost use Rattle.std.specs.Prelude.{◌≡◌, false, true};

use cc_memdev::{DiskFails, LogFails, MemDisk, MemLog, MemSink, MemSource};
use cc_traits::{LogFile, PageDisk, PostRoutine, PostedRoutine, Sink, Source, Stop};
use std::test::Fail;

fn write<D: PageDisk>(disk: &mut D, page: u64, byte: u8) -> Result<(), Stop> {
    disk.write_page(page, &[byte; 4096])
}

/// Reads a page over a buffer that is full of one byte.
fn read<D: PageDisk>(disk: &mut D, page: u64, byte: u8) -> Result<(), Stop> {
    let mut out = [byte; 4096];
    disk.read_page(page, &mut out)
}

fn sync<D: PageDisk>(disk: &mut D) -> Result<(), Stop> {
    disk.sync()
}

#[test]
fn a_disk_keeps_pages(rt: HostRuntime) -> Result<(), Fail> {
    let fails = DiskFails {
        reads: Vec::new(rt.alloc()),
        writes: vec![in rt.alloc(); 2]?,
        syncs: Vec::new(rt.alloc()),
    };
    let mut disk = MemDisk::new(rt.alloc(), 0x5A, fails);
    assert_eq!(rt; write(&mut disk, 3, 7), Ok(()));
    assert_eq!(rt; sync(&mut disk), Ok(()));
    assert_eq!(rt; write(&mut disk, 3, 8), Err(Stop::Failed));
    assert_eq!(rt; read(&mut disk, 3, 0), Ok(()));
    assert_eq!(rt; disk.may(3)?.len(), 2);
    disk.stop_after(4);
    assert_eq!(rt; read(&mut disk, 3, 0), Err(Stop::Failed));
    assert!(rt; disk.page(3) == [7; 4096]);
    assert_eq!(rt; disk.faults(), 2);
    Ok(())
}

fn append_and_flush<L: LogFile>(log: &mut L, lsn: u64) -> Result<(), Stop> {
    log.append(lsn, b"ab")?;
    log.flush(lsn)
}

#[test]
fn a_log_keeps_entries(rt: HostRuntime) -> Result<(), Fail> {
    let fails = LogFails {
        appends: vec![in rt.alloc(); 2]?,
        flushes: Vec::new(rt.alloc()),
        reads: vec![in rt.alloc(); 3]?,
    };
    let mut log = MemLog::new(rt.alloc(), fails);
    assert_eq!(rt; append_and_flush(&mut log, 1), Ok(()));
    assert_eq!(rt; append_and_flush(&mut log, 2), Err(Stop::Failed));
    assert_eq!(rt;
        (log.entries().len(), log.durable(), log.faults()),
        (1, 1, 1)
    );
    let mut boxed: Box<dyn LogFile + Send> = Box::new(rt.alloc(), log)?;
    assert_eq!(rt; append_and_flush(&mut boxed, 3), Ok(()));
    let mut bytes = Vec::new(rt.alloc());
    assert_eq!(rt; boxed.entry(1, &mut bytes), Ok(Some(3)));
    assert_eq!(rt; bytes.as_slice(), b"ab".as_slice());
    assert_eq!(rt; boxed.entry(2, &mut bytes), Ok(None));
    assert_eq!(rt; boxed.entry(0, &mut bytes), Err(Stop::Failed));
    Ok(())
}

fn take<S: Source>(source: &mut S) -> Result<usize, Stop> {
    let mut buf = [0; 8];
    source.take(&mut buf)
}

#[test]
fn a_source_gives_pieces_of_its_bytes(rt: HostRuntime) -> Result<(), Fail> {
    let bytes = vec![in rt.alloc(); b'a', b'b', b'c']?;
    let mut source = MemSource::new(bytes, 2, vec![in rt.alloc(); 3]?);
    assert_eq!(rt; take(&mut source), Ok(2));
    assert_eq!(rt; take(&mut source), Ok(1));
    assert_eq!(rt; take(&mut source), Err(Stop::Failed));
    assert_eq!(rt; take(&mut source), Ok(0));
    assert_eq!(rt; source.faults(), 1);
    Ok(())
}

fn put<K: Sink>(sink: &mut K, bytes: &[u8]) -> Result<usize, Stop> {
    sink.put(bytes)
}

#[test]
fn a_sink_keeps_what_it_takes(rt: HostRuntime) -> Result<(), Fail> {
    let mut sink = MemSink::new(rt.alloc(), vec![in rt.alloc(); 2]?);
    assert_eq!(rt; put(&mut sink, b"ab"), Ok(2));
    assert_eq!(rt; put(&mut sink, b"c"), Err(Stop::Failed));
    assert_eq!(rt; put(&mut sink, b"d"), Ok(1));
    assert_eq!(rt; (sink.taken(), sink.faults()), (b"abd".as_slice(), 1));
    Ok(())
}

/// A routine that notes that it was posted.
#[derive(Drop)]
pub(crate) struct Routine {
    pub(crate) posted: bool,
}

impl PostRoutine for Routine {
    ghost posted = { λ routine. routine.posted };

    fn post(&mut self) {
        self.posted = true;
    }
}

fn posted<Q: PostRoutine>(id: u64, mut routine: Q) -> PostedRoutine<Q>
    requires { Q.posted routine ≡ false }
    ensures { Q.posted result.routine ≡ true }
{
    routine.post();
    PostedRoutine { id, routine }
}

#[test]
fn a_routine_is_posted_in_a_box(rt: HostRuntime) -> Result<(), Fail> {
    let boxed: Box<dyn PostRoutine + Send> = Box::new(rt.alloc(), Routine { posted: false })?;
    assert_eq!(rt; posted(3, boxed).id, 3);
    Ok(())
}
