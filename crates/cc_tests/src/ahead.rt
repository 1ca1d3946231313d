//! Tests of the private maps of a stream's objects, and of a read-ahead step that no line of a script makes.

use crate::desk::desk;
use cc_ahead::PrivateMaps;
use cc_calls::read_ahead_step;
use cc_entry::{AheadDone, Bytes, Call, Entry, FileId, Outcome, Reply, Request};
use cc_queue::Queue;
use std::test::Fail;

fn read(file: FileId, at: u64) -> Call {
    Call::CopyRead {
        file,
        at,
        len: 10,
        wait: true,
    }
}

// The end of the second read lies past 2^64.
#[test]
fn what_ends_past_the_last_number_leads_to_nothing(rt: HostRuntime) -> Result<(), Fail> {
    let file = FileId::new(1, 0).ok_or("file")?;
    let reply = Reply::Read(Bytes::of(rt.alloc(), &[0x5A; 10])?);
    let mut maps = PrivateMaps::new();
    maps.done(&read(file, 0), &reply, false);
    maps.done(&read(file, 10), &reply, false);
    assert!(rt; maps.ahead_of(file, 20, 10, false, 100000).is_some());
    assert_eq!(rt; maps.ahead_of(file, 20, u64::MAX, false, 100000), None);
    Ok(())
}

#[test]
fn a_request_of_no_stream_brings_nothing_in(rt: HostRuntime) -> Result<(), Fail> {
    let alloc = rt.alloc();
    let file = FileId::new(1, 0).ok_or("file")?;
    let (at, len) = (0, 4096);
    let (queue, mut place) = Queue::new(alloc)?;
    assert!(rt; queue.push(&rt, &mut place, Request { file, at, len }));
    let mut desk = desk(alloc)?;
    desk.act_as(18);
    let stepped = read_ahead_step(&rt, alloc, &mut desk, &queue, &mut place);
    assert!(rt; matches!(stepped, Ok(Some(AheadDone { whole: false, .. }))));
    let again = read_ahead_step(&rt, alloc, &mut desk, &queue, &mut place);
    assert!(rt; matches!(again, Ok(None)));
    let journal = desk.journal();
    assert_eq!(rt; journal.len(), 1);
    assert!(rt;
        matches!(
            journal.last(),
            Some(Entry::Call {
                call: Call::AheadStep { .. },
                outcome: Outcome::Done(Reply::Whole(false)),
                ..
            })
        )
    );
    desk.leave();
    Ok(())
}
