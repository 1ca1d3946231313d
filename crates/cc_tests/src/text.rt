//! A test of printed text that no script shows: an answer that no line gives, a stream that the script does not have, and replies
//! in another order than that of the lines.

use cc_entry::{Answer, Entry, LineReply, PageId, StreamId};
use cc_print::text_of;
use cc_script::{Mode, read_script};
use std::test::Fail;

const SCRIPT: &[u8] = b"stream a 8192 6144\nt2 isdirty\nisdirty\nisdirty\n";

// The fourth line has no reply.
const TEXT: &str = "setup
1 ok restart 3
caller t1
3 ok lock 4
caller t2
2 no hold
journal
1 out  7
";

#[test]
fn prints_what_no_script_shows(rt: HostRuntime) -> Result<(), Fail> {
    let script = read_script(rt.alloc(), SCRIPT, Mode::Run)
        .ok()
        .ok_or("script")?;
    let stream = StreamId::new(15).ok_or("stream")?;
    let page = PageId::new(stream, 7).ok_or("page")?;
    let replies = [
        LineReply {
            line: 3,
            answer: Answer::LockId(4),
        },
        LineReply {
            line: 1,
            answer: Answer::Restarted(3),
        },
        LineReply {
            line: 2,
            answer: Answer::NoHold,
        },
    ];
    let journal = [Entry::PageOut { pass: 2, page }];
    let printed = text_of(rt.alloc(), &script, &replies, &journal, &[])
        .ok()
        .ok_or("text")?;
    assert!(rt; printed.as_slice() == TEXT.as_bytes());
    Ok(())
}
