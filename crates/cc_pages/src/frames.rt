//! The frames of the pages, and snapshots of them.

ghost use Rattle.std.specs.Prelude.{◌≡◌, ℕ, ◌+◌, ◌<◌, ◌≤◌, true, None, Some, length, IsSome, IfSome, IfOk, OnOk, OnErr};
ghost use Rattle.std.specs.Option.{option_copied, option_map};
ghost use Rattle.cc_pages.specs.Pages.{owned, shared, page_at, bytes_at, kept_page, page_in_slot, is_owned, overwritten, KeepsOtherFrames, Snapshot};

use std::alloc::Global;
use std::array;
use std::marker::Model;
use std::sync::Arc;
use thiserror::Error;

/// Bytes in a page.
pub const PAGE_SIZE: usize = 4096;

/// Pages in a view block.
pub const PAGES: usize = 64;

/// No memory was found for the frame of a page.
#[derive(Clone, Copy, Debug, PartialEq, Eq, Error)]
#[error("no memory for the 4096 bytes of a page")]
pub struct NoMemory;

/// A snapshot of a page: the bytes of the moment in which it was made, whatever becomes of the page.
#[derive(Drop)]
pub struct Frame {
    bytes: Arc<[u8; PAGE_SIZE]>,
}

impl Model for Frame {
    ghost use Rattle.std.specs.Prelude.{ℕ, List};

    ghost Value = { List ℕ };

    ghost view = { λ f. f.bytes.value };
}

impl Frame {
    /// The bytes.
    pub fn bytes(&self) -> &[u8; PAGE_SIZE]
        ensures { result.now ≡ self.now }
    {
        &self.bytes
    }
}

// How a page is kept: in a box of its own, or shared with its snapshots. Whether an `Arc` has one owner is
// known only as the program runs, and a write can't fail, so a page that is written is kept in a box.
#[derive(Drop)]
enum Kept {
    Owned(Box<[u8; PAGE_SIZE]>),
    Shared(Arc<[u8; PAGE_SIZE]>),
}

/// The pages of one view block, each its 4096 bytes, owned or shared with snapshots of it, or absent.
/// They stand in a box, so a move of them moves no page.
#[derive(Drop)]
pub struct Frames {
    slots: Box<[Option<Kept>; PAGES]>,
    alloc: Global,
}

impl Model for Frames {
    ghost use Rattle.std.specs.Prelude.{◌≡◌, ℕ, List, Option, length};
    ghost use Rattle.cc_pages.specs.Pages.{PageFrame, pages_in};
    ghost use Rattle.cc_pages.specs.declared.frames.TheConstants.{PAGES};

    ghost Value = { List (Option PageFrame) };

    ghost view = { λ f. pages_in f.slots.value };

    ghost invariant = { λ f. length f.slots.value ≡ PAGES };
}

impl Frames {
    /// No page. Answers `NoMemory` where memory is wanting.
    pub fn new(alloc: Global) -> Result<Frames, NoMemory>
        ensures empty { IfOk result (λ frames. (i : ℕ) → page_at frames i ≡ None) }
    {
        let slots = array::from_fn(|_| None);
        let Ok(slots) = Box::new(alloc, slots) else {
            return Err(NoMemory);
        };
        Ok(Frames { slots, alloc })
    }

    /// The bytes of a page.
    pub fn get(&self, i: u8) -> Option<&[u8; PAGE_SIZE]>
        requires { i < PAGES }
        ensures { option_copied result ≡ bytes_at self.now i }
    {
        match &(*self.slots)[i as usize] {
            Some(kept) => Some(kept.bytes()),
            None => None,
        }
    }

    /// Gives a page these bytes, in a frame of its own. The page is owned then. Answers `NoMemory`, and then nothing
    /// has changed.
    pub fn put(&mut self, i: u8, bytes: &[u8; PAGE_SIZE]) -> Result<(), NoMemory>
        requires { i < PAGES }
        ensures page { OnOk result (page_at self.new i ≡ Some (owned bytes.now)) }
        ensures others { KeepsOtherFrames self.old self.new i }
        ensures err { OnErr result (self.new ≡ self.old) }
    {
        match Box::new(self.alloc, *bytes) {
            Ok(frame) => {
                (*self.slots)[i as usize] = Some(Kept::Owned(frame));
                Ok(())
            }
            Err(_) => Err(NoMemory),
        }
    }

    /// Writes bytes over those of a page that is there and owned.
    pub fn write(&mut self, i: u8, at: u16, bytes: &[u8])
        requires within { i < PAGES }
        requires owned { is_owned (page_at self.old i) ≡ true }
        requires fits { at + length bytes.now ≤ PAGE_SIZE }
        ensures page { IfSome (page_at self.old i)
            (λ page. page_at self.new i ≡ Some (owned (overwritten page.bytes at bytes.now))) }
        ensures others { KeepsOtherFrames self.old self.new i }
    {
        overwrite(&mut (*self.slots)[i as usize], at as usize, bytes);
    }

    /// Makes a snapshot of a page, which is shared then; `None` where there is no page. Answers `NoMemory`, and then
    /// nothing has changed.
    pub fn share(&mut self, i: u8) -> Result<Option<Frame>, NoMemory>
        requires { i < PAGES }
        ensures page { IfOk result (Snapshot (page_at self.old i) (page_at self.new i)) }
        ensures others { KeepsOtherFrames self.old self.new i }
        ensures err { OnErr result (self.new ≡ self.old) }
    {
        let Some(kept) = &(*self.slots)[i as usize] else {
            return Ok(None);
        };
        let (frame, kept) = kept.shared(self.alloc)?;
        (*self.slots)[i as usize] = Some(kept);
        Ok(Some(frame))
    }

    /// Makes a page that is there owned, by a copy where it is shared. Answers `NoMemory`, and then nothing has
    /// changed.
    pub fn own(&mut self, i: u8) -> Result<(), NoMemory>
        requires within { i < PAGES }
        requires there { IsSome (page_at self.old i) }
        ensures page { OnOk result (page_at self.new i
            ≡ option_map (λ page. owned page.bytes) (page_at self.old i)) }
        ensures others { KeepsOtherFrames self.old self.new i }
        ensures err { OnErr result (self.new ≡ self.old) }
    {
        if let Some(Kept::Shared(frame)) = &(*self.slots)[i as usize] {
            let bytes = **frame;
            return self.put(i, &bytes);
        }
        Ok(())
    }

    /// Takes a page away.
    pub fn clear(&mut self, i: u8)
        requires { i < PAGES }
        ensures page { page_at self.new i ≡ None }
        ensures others { KeepsOtherFrames self.old self.new i }
    {
        (*self.slots)[i as usize] = None;
    }
}

impl Kept {
    fn bytes(&self) -> &[u8; PAGE_SIZE]
        ensures { result.now ≡ (kept_page self.now).bytes }
    {
        match self {
            Kept::Owned(frame) => &**frame,
            Kept::Shared(frame) => &**frame,
        }
    }

    // a snapshot of the page, and the page as it is kept with it
    fn shared(&self, alloc: Global) -> Result<(Frame, Kept), NoMemory>
        ensures frame { IfOk result (λ made. made.0 ≡ (kept_page self.now).bytes) }
        ensures page { IfOk result (λ made. kept_page made.1 ≡ shared (kept_page self.now).bytes) }
    {
        let bytes = match self {
            Kept::Owned(frame) => Arc::new(alloc, **frame).map_err(|_| NoMemory)?,
            Kept::Shared(frame) => Arc::try_clone(frame).map_err(|_| NoMemory)?,
        };
        let again = Arc::try_clone(&bytes).map_err(|_| NoMemory)?;
        Ok((Frame { bytes }, Kept::Shared(again)))
    }
}

// Writes bytes over those of the owned frame in a slot, where there is one.
fn overwrite(slot: &mut Option<Kept>, at: usize, bytes: &[u8])
    requires { at + length bytes.now ≤ PAGE_SIZE }
    ensures { is_owned (page_in_slot slot.old) ≡ true → page_in_slot slot.new
        ≡ option_map (λ page. owned (overwritten page.bytes at bytes.now)) (page_in_slot slot.old) }
{
    if let Some(Kept::Owned(frame)) = slot {
        frame[at..at + bytes.len()].copy_from_slice(bytes);
    }
}
