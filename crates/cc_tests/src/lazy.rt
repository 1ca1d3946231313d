//! A test of the writing of one page over a desk, which no line of a script makes.

use crate::desk::{desk, object};
use cc_calls::{PageWriteAnswer, copy_write, initialize, write_one};
use cc_entry::{FileSizes, PageId, Quota};
use std::test::Fail;

#[test]
fn a_page_is_written_and_then_skipped(rt: HostRuntime) -> Result<(), Fail> {
    let alloc = rt.alloc();
    let file = object()?;
    let page = PageId::new(file.stream(), 0).ok_or("page")?;
    let quota = Quota::new(8).ok_or("quota")?;
    let sizes = FileSizes {
        allocation: 8192,
        size: 8192,
        valid: 8192,
    };
    let mut desk = desk(alloc)?;
    desk.act_as(1);
    let begun = initialize(alloc, &mut desk, file, sizes, quota, false);
    let copied = copy_write(alloc, &mut desk, file, 0, b"bytes");
    let written = matches!(write_one(&mut desk, page), Ok(PageWriteAnswer::Written));
    let skipped = matches!(write_one(&mut desk, page), Ok(PageWriteAnswer::Skipped));
    desk.leave();
    assert_eq!(rt; (begun, copied), (Ok(()), Ok(())));
    assert_eq!(rt; (written, skipped), (true, true));
    Ok(())
}
