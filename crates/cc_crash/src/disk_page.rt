//! What the entries so far say of a page.

ghost use Rattle.std.specs.Prelude.{◌≡◌, IfOk, OnOk};
ghost use Rattle.cc_crash.specs.DiskPages.{PageState, at_first, begins, changes, discards, ends, syncs};
ghost use Rattle.cc_model.specs.Acts.{act_of};

use crate::changes::{changed, reaches, shown};
use cc_entry::{Call, NoMemory, PageId};
use std::alloc::Global;
use std::marker::Model;

/// What the entries so far say of a page.
#[derive(Drop)]
pub(crate) struct DiskPage {
    /// What the last change or discard gave each byte, or the disk's opening byte.
    given: [u8; 4096],
    /// Each byte as the page's last transfer that ended ok began, or the opening byte.
    held: [u8; 4096],
    /// The contents that a crash may leave, in their order.
    may: Vec<[u8; 4096]>,
    /// What the disk holds for sure, where that is known.
    known: Option<[u8; 4096]>,
    /// The page as its last transfer began, where there was one.
    sent: Option<[u8; 4096]>,
}

impl Model for DiskPage {
    ghost Value = { PageState };

    ghost view = { λ page. record {
      given = page.given;
      held = page.held;
      may = page.may.items;
      known = page.known;
      sent = page.sent;
    } };
}

impl DiskPage {
    /// The page as the disk opened with it. Answers `NoMemory` where memory is wanting.
    pub(crate) fn new(alloc: Global, opening: &[u8; 4096]) -> Result<DiskPage, NoMemory>
        ensures { IfOk result (λ page. page ≡ at_first opening.now) }
    {
        let mut may = Vec::new(alloc);
        may.push(*opening)?;
        Ok(DiskPage {
            given: *opening,
            held: *opening,
            may,
            known: Some(*opening),
            sent: None,
        })
    }

    /// A call that is no discard is done, given the size before it.
    pub(crate) fn changes(&mut self, call: &Call, size: u64, page: PageId)
        ensures { self.new ≡ changes (act_of call.now) size page.page self.old }
    {
        if reaches(call, page) {
            self.given = changed(&self.given, call, size, page);
        }
    }

    /// The page is discarded.
    pub(crate) fn discards(&mut self)
        ensures { self.new ≡ discards self.old }
    {
        self.given = self.held;
    }

    /// A transfer begins, given the valid data length. Answers `NoMemory` where memory is wanting.
    pub(crate) fn begins(&mut self, valid: u128, page: PageId) -> Result<(), NoMemory>
        ensures { OnOk result (self.new ≡ begins valid page.page self.old) }
    {
        let bytes = shown(&self.given, valid, page);
        self.may.push(bytes)?;
        self.sent = Some(bytes);
        Ok(())
    }

    /// A transfer ends, ok or not.
    pub(crate) fn ends(&mut self, ok: bool)
        ensures { self.new ≡ ends ok self.old }
    {
        let Some(bytes) = self.sent else {
            return;
        };
        if ok {
            self.held = bytes;
            self.known = Some(bytes);
        } else {
            self.known = None;
        }
    }

    /// The disk was synced. Answers `NoMemory` where memory is wanting.
    pub(crate) fn syncs(&mut self) -> Result<(), NoMemory>
        ensures { OnOk result (self.new ≡ syncs self.old) }
    {
        let Some(known) = self.known else {
            return Ok(());
        };
        self.may.clear();
        self.may.push(known)?;
        Ok(())
    }

    /// The contents that a crash may leave.
    pub(crate) fn into_may(self) -> Vec<[u8; 4096]>
        ensures { result.items ≡ self.may }
    {
        self.may
    }
}
