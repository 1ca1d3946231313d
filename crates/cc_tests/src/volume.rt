//! A test of a checkpoint of the streams of a volume. A line of a script makes that of the streams of its run.

use crate::desk::{desk, object};
use cc_calls::{initialize, set_log_handle};
use cc_entry::{FileSizes, Lsn, Quota};
use cc_journal::Left;
use cc_shim::{Volume, checkpoint};
use std::test::Fail;

#[test]
fn a_checkpoint_of_a_volume_is_logged(rt: HostRuntime) -> Result<(), Fail> {
    let alloc = rt.alloc();
    let file = object()?;
    let first = Lsn::new(1).ok_or("lsn")?;
    let quota = Quota::new(8).ok_or("quota")?;
    let sizes = FileSizes {
        allocation: 8192,
        size: 8192,
        valid: 8192,
    };
    let names = vec![in alloc; String::from_str(alloc, "a")?]?;
    let volume = Volume::new(names).ok_or("volume")?;
    let mut desk = desk(alloc)?;
    desk.act_as(1);
    let begun = initialize(alloc, &mut desk, file, sizes, quota, false);
    let set = set_log_handle(alloc, &mut desk, file, 0);
    let answer = checkpoint(alloc, &mut desk, &volume, 0);
    let Left { logs, .. } = desk.leave();
    let log = logs.first().ok_or("log")?;
    let is_empty_table = log.entries().iter().all(|(_, bytes)| bytes.as_slice()
        == [0xFF, 0, 0, 0, 0].as_slice());
    assert_eq!(rt; (begun, set, answer), (Ok(()), Ok(()), Ok(first)));
    assert_eq!(rt; (log.entries().len(), log.durable()), (1, 1));
    assert!(rt; is_empty_table);
    Ok(())
}
