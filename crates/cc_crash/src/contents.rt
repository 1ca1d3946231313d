//! The contents that a crash may leave of a page.

ghost use Rattle.std.specs.Prelude.{◌≡◌, ℕ, List, Option, IfOk, OnOk};
ghost use Rattle.std.specs.List.{cons_option};
ghost use Rattle.cc_crash.specs.DiskPages.{called, page_state_of_history};
ghost use Rattle.cc_events.specs.Events.{event_of_act};
ghost use Rattle.cc_model.specs.Acts.{act_of};
ghost use Rattle.cc_model.specs.History.{effect_of};
ghost use Rattle.cc_model.specs.Images.{crash_pages};
ghost use Rattle.cc_model.specs.Touches.{is_dirty, size_of};
ghost use Rattle.cc_crash.specs.Effects.{effects, AreSizesOverJournal};

use crate::dirty::is_unwritten;
use crate::disk_page::DiskPage;
use crate::sizes::{sizes, valid_with};
use crate::steps::{Step, done_call, step_of};
use cc_entry::{Call, Entry, NoMemory, PageId};
use cc_events::{StreamEvent, act, span_has};
use std::alloc::Global;

/// The contents that a crash may leave of a page, in the order of the definition, over any disk that opened with this page.
/// Answers `NoMemory` where memory is wanting.
pub fn crash_pages(
    alloc: Global,
    journal: &[Entry],
    opening: &[u8; 4096],
    page: PageId,
) -> Result<Vec<[u8; 4096]>, NoMemory>
    ensures { (pages : ℕ → List ℕ) → pages page.page ≡ opening.now →
        IfOk result (λ contents. contents.items ≡ crash_pages pages (effects journal.now page.stream) page.page) }
{
    let found = sizes(alloc, journal, page.stream())?;
    let mut left = DiskPage::new(alloc, opening)?;
    for (i, entry) in journal.iter().enumerate() {
        follow(alloc, &mut left, entry, &journal[..i], &found, page)?;
    }
    Ok(left.into_may())
}

// One entry more, after those before it, given the sizes.
fn follow(
    alloc: Global,
    left: &mut DiskPage,
    entry: &Entry,
    before: &[Entry],
    sizes: &[u64],
    page: PageId,
) -> Result<(), NoMemory>
    requires sizes { AreSizesOverJournal sizes.now before.now page.stream }
    ensures { (pages : ℕ → List ℕ) → left.old ≡ page_state_of_history pages (effects before.now page.stream) page.page →
        OnOk result (left.new ≡ page_state_of_history pages
        (cons_option (effect_of entry.now page.stream) (effects before.now page.stream)) page.page) }
{
    if let Some(call) = done_call(entry, page.stream()) {
        return call_done(alloc, left, call, before, sizes, page);
    }
    match step_of(entry, page) {
        Step::Rests => Ok(()),
        Step::Begins => {
            let valid = valid_with(alloc, before, sizes, page.stream())?;
            left.begins(valid, page)
        }
        Step::Ends { ok } => {
            left.ends(ok);
            Ok(())
        }
        Step::Syncs => left.syncs(),
    }
}

// A call was done, after these entries, given the sizes.
fn call_done(
    alloc: Global,
    left: &mut DiskPage,
    call: &Call,
    before: &[Entry],
    sizes: &[u64],
    page: PageId,
) -> Result<(), NoMemory>
    requires { AreSizesOverJournal sizes.now before.now page.stream }
    ensures { OnOk result (left.new ≡ called (event_of_act (act_of call.now)) (act_of call.now)
        (size_of (effects before.now page.stream)) page.page (is_dirty (effects before.now page.stream) page.page) left.old) }
{
    let size = sizes[before.len()];
    match act(call) {
        StreamEvent::Discards { span } => {
            let number = u128::from(page.page());
            let dirty = is_unwritten(alloc, before, sizes, page.stream(), number, false)?;
            if span_has(span, number) && dirty {
                left.discards();
            }
            Ok(())
        }
        _ => {
            left.changes(call, size, page);
            Ok(())
        }
    }
}
