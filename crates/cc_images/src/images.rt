//! What is kept of the images of one stream's pages.

ghost use Rattle.std.specs.Prelude.{◌≡◌, ℕ, ◌*◌, ◌≤◌, not, ◌&&◌, Bool, List, [], ◌∷◌, OnOk, OnErr, Option};
ghost use Rattle.std.specs.List.{find};
ghost use Rattle.cc_entry.specs.Place.{File};
ghost use Rattle.cc_entry.specs.declared.place.FileSizes.{FileSizes};
ghost use Rattle.cc_entry.specs.declared.call.Call.{Call};
ghost use Rattle.cc_entry.specs.declared.call.Call.TheVariants as call;
ghost use Rattle.cc_entry.specs.declared.reply.Reply.{Reply};
ghost use Rattle.cc_entry.specs.declared.entry.Entry.{Entry};
ghost use Rattle.cc_model.specs.Discards.{is_known, has_grown};
ghost use Rattle.cc_model.specs.History.{Effect, Did, Began, Ended, history};
ghost use Rattle.cc_model.specs.Ranges.{span_has};
ghost use Rattle.cc_model.specs.Setup.{Setup};
ghost use Rattle.cc_model.specs.Touches.{valid_of, dirty_pages};
ghost use Rattle.cc_images.specs.Begins.{HasRoomToBegin};
ghost use Rattle.cc_images.specs.Images.{ImagesStand};
ghost use Rattle.cc_images.specs.Following.{MayFollowImages, IsFollowingImages, MayOpen, MayEndTransfer, IsEnding};
ghost use Rattle.cc_images.specs.Dirty.{AreDirty};

use crate::page_set::PageSet;
use crate::room::Room;
use crate::{grown, unknown};
use cc_dirty::Row;
use cc_entry::{End, NoMemory, Span, StreamId};
use std::alloc::Global;
use std::cmp::min;
use std::collections::VecDeque;
use std::marker::Model;

/// What is kept of the images of one stream's pages.
#[derive(Drop)]
pub struct Images {
    /// Of each page that has grown its first byte that became valid since the disk took the page, ascending.
    grown: VecDeque<u64>,
    /// The least valid data length since the last transfer began.
    begun: u64,
    /// The pages whose image is not known.
    unknown: PageSet,
}

impl Model for Images {
    ghost use Rattle.std.specs.VecDeque.{deque_capacity};
    ghost use Rattle.cc_images.specs.Images.{Images};

    ghost Value = { Images };

    ghost view = { λ i. record {
      grown = i.grown.items;
      begun = i.begun;
      unknown = i.unknown;
      grown_room = deque_capacity i.grown;
    } };
}

impl Images {
    /// The images of a stream of which nothing happened yet. It takes no memory.
    pub fn new(alloc: Global) -> Images
        ensures { (h : List Effect) → h ≡ [] → ImagesStand h result }
    {
        Images {
            grown: VecDeque::new(alloc),
            begun: 0,
            unknown: PageSet::new(alloc),
        }
    }

    /// Follows an initialise that makes the shared map (`CcInitializeCacheMap`), with this valid data length, given
    /// room for its quota. It takes no memory.
    pub fn opened(&mut self, room: Room, valid: u64)
        ensures room { HasRoomToBegin self.old → HasRoomToBegin self.new }
        ensures stands { (u : Setup) (past : List Entry) (pass nth s : ℕ) (file : File) (sizes : FileSizes) (quota : ℕ)
            (temporary : Bool) (reply : Reply) →
            MayOpen u past pass nth s file sizes quota temporary reply self.old →
            sizes.valid ≡ valid → 64 * quota ≤ room →
            ImagesStand (Did pass (call.Initialise file sizes quota temporary) reply ∷ history past s) self.new }
    {
        self.grown = room.bytes;
        self.begun = min(self.begun, valid);
    }

    /// Follows any other call that was done, given the valid data lengths before and after it. It takes no memory.
    pub fn done(&mut self, was: u64, now: u64)
        requires may { IsFollowingImages self.old was now }
        ensures room { HasRoomToBegin self.old → HasRoomToBegin self.new }
        ensures stands { (u : Setup) (past : List Entry) (pass nth s : ℕ) (call : Call) (reply : Reply) →
            MayFollowImages u past pass nth s call reply self.old was now →
            ImagesStand (Did pass call reply ∷ history past s) self.new }
    {
        if was < now {
            grown::raise(&mut self.grown, was, now);
        } else if now < was {
            grown::lower(&mut self.grown, now);
            self.begun = min(self.begun, now);
        }
    }

    /// Takes the memory that the end of a page's transfer may need. Answers `NoMemory`, and then nothing has changed.
    pub fn reserve(&mut self) -> Result<(), NoMemory>
        ensures room { OnOk result (HasRoomToBegin self.new) }
        ensures stands { (h : List Effect) → ImagesStand h self.old → ImagesStand h self.new }
        ensures err { OnErr result (self.new ≡ self.old) }
    {
        self.unknown.reserve()
    }

    /// Follows the begin of a page's transfer, at this valid data length, for whose end the memory is taken.
    pub fn began_reserved(&mut self, valid: u64)
        requires room { HasRoomToBegin self.old }
        ensures { (h : List Effect) (pass page : ℕ) → ImagesStand h self.old →
            valid ≡ valid_of h → ImagesStand (Began pass page ∷ h) self.new }
    {
        self.begun = valid;
    }

    /// Follows the begin of a page's transfer, at this valid data length. Its end takes no memory. Answers `NoMemory`,
    /// and then nothing has changed.
    pub fn began(&mut self, valid: u64) -> Result<(), NoMemory>
        ensures stands { OnOk result ((h : List Effect) (pass page : ℕ) → ImagesStand h self.old →
            valid ≡ valid_of h → ImagesStand (Began pass page ∷ h) self.new) }
        ensures err { OnErr result (self.new ≡ self.old) }
    {
        self.reserve()?;
        self.began_reserved(valid);
        Ok(())
    }

    /// Follows the end of that transfer, at this valid data length. A good one makes the image known, and as valid
    /// as the page was when the transfer began; after any other the image is not known. It takes no memory.
    pub fn ended(&mut self, page: u64, how: End, valid: u64)
        requires may { IsEnding page how self.old valid }
        ensures { (u : Setup) (past : List Entry) (pass s : ℕ) →
            MayEndTransfer u past pass (record { stream = s; page = page }) how self.old valid →
            ImagesStand (Ended pass page how ∷ history past s) self.new }
    {
        match how {
            End::Good => {
                grown::write(&mut self.grown, page, self.begun, valid);
                self.unknown.remove(page);
            }
            End::Failed | End::NoMemory => self.unknown.insert(page),
        }
    }

    /// Whether the image of a page is known: its last transfer that ended did not fail.
    pub fn is_known(&self, page: u64) -> bool
        ensures { (h : List Effect) → ImagesStand h self.now → result ≡ is_known h page }
    {
        !self.unknown.contains(page)
    }

    /// The least dirty page of a span whose image is not known, given the dirty pages.
    pub fn first_unknown(&self, dirty: &[Row], stream: StreamId, span: Option<Span>) -> Option<u64>
        ensures { (h : List Effect) → ImagesStand h self.now → AreDirty h stream dirty.now →
            result ≡ find (λ p. span_has span p && not (is_known h p)) (dirty_pages h) }
    {
        unknown::first_of(&self.unknown, dirty, stream, span)
    }

    /// The least dirty page of a span that has grown.
    pub fn first_grown(&self, span: Option<Span>) -> Option<u64>
        ensures { (h : List Effect) → ImagesStand h self.now →
            result ≡ find (λ p. span_has span p && has_grown h p) (dirty_pages h) }
    {
        grown::first_in(&self.grown, span)
    }
}
