//! Tests of the view index.

ghost use Rattle.std.specs.Prelude.{◌≡◌, ◌<◌};
ghost use Rattle.cc_vacb.specs.Index.{StartsBelow};

use cc_vacb::{Ledger, Slot, Steps, ViewIndex};
use std::marker::Brand;
use std::sync::ledger::Blank;
use std::test::Fail;

// The view of a block, and slot 3 of the root.
fn looked_up<L: Ledger>(index: &ViewIndex, block: u64, blank: Blank) -> (Option<u16>, Slot)
    requires name { blank.name ≡ L.name }
    requires parts { blank.parts ≡ L.parts }
    requires some { 0 < blank.parts }
    requires starts { StartsBelow block index.now.size }
{
    let mut steps = Steps::<L>::new(blank);
    (index.get(block, &mut steps), index.slot(0, 3, &mut steps))
}

#[test]
fn index_blocks_come_and_go_with_size_and_entries(rt: HostRuntime) -> Result<(), Fail> {
    let mut index = ViewIndex::new(rt.alloc(), 1 << 20)?;
    index.put(3, 30)?;
    index.resize((1 << 63) - 1)?;
    index.put(1 << 44, 40)?;
    assert_eq!(rt; (index.levels(), index.blocks()), (7, 13));
    assert_eq!(rt; index.take(1 << 44), Some(40));
    index.resize(1 << 20)?;
    assert_eq!(rt; (index.levels(), index.blocks()), (1, 1));
    let found = looked_up::<Brand>(&index, 3, Blank::new(1));
    assert_eq!(rt; found, (Some(30), Slot::View(30)));
    Ok(())
}
