//! A done call: what is kept follows it, and its entry is placed.

ghost use Rattle.std.specs.Prelude.{◌≡◌, ℕ, ◌<◌, true, false, Bool, List, ◌∷◌, Option, OnOk, OnErr, IfOk, IsOk};
ghost use Rattle.cc_entry.specs.declared.call.Call.{Call};
ghost use Rattle.cc_entry.specs.declared.entry.Entry.{Entry};
ghost use Rattle.cc_entry.specs.declared.reply.Reply.{Reply};
ghost use Rattle.cc_model.specs.History.{Effect, Did, history};
ghost use Rattle.cc_model.specs.Touches.{is_mapped};
ghost use Rattle.cc_model.specs.Setup.{Setup};
ghost use Rattle.cc_laws.proofs.HoldSteps.{changes_holds};
ghost use Rattle.cc_content.specs.Contents.{ContentsStand};
ghost use Rattle.cc_content.specs.Following.{truncated_by, takes_content_memory as contents_take};
ghost use Rattle.cc_images.specs.Begins.{HasRoomToBegin};
ghost use Rattle.cc_images.specs.Images.{ImagesStand};
ghost use Rattle.cc_stream.specs.Stream.{StreamStands};
ghost use Rattle.cc_ahead.specs.Kept.{PrivateStands};
ghost use Rattle.cc_book.specs.Book.{BookStands, Gains, Stays, StandsAsBefore, done, MayDoOnBook, IsDoing, GoesOnBy, OwnsFor, IsMapRoomFor, ImagesMayFollow, ImagesFollow, takes_memory};
ghost use Rattle.cc_book.specs.Stored.{MayStoreAndBegin, GainsStore};

use crate::book::{Book, BookParts};
use cc_entry::{Bytes, Call, Entry, FileId, NoMemory, Outcome, PageId, Reply};
use cc_events::id_in;
use cc_images::Room;
use cc_journal::Journal;
use cc_stream::StreamState;
use std::alloc::Global;

impl Book {
    /// A call on the stream is done with this answer. An uninitialise answers whether the shared map went, which
    /// the journal says before it (`Journal::stays_mapped`). The pages that the call changes are owned first, so
    /// where it finds no memory no byte has changed. The images follow last and take none. Answers `NoMemory`, and then
    /// the journal is as it was, and the book stands for it as before.
    pub fn done<Q>(
        &mut self,
        alloc: Global,
        journal: &mut Journal<Q>,
        pass: u32,
        call: Call,
        reply: Reply,
    ) -> Result<(), NoMemory>
        requires reserved { 0 < journal.old.reserved }
        requires may { (u : Setup) × MayDoOnBook u journal.old.entries pass call reply self.old }
        ensures placed { OnOk result
            (Gains (done pass journal.old.entries self.old.stream call reply) journal.old journal.new) }
        ensures stands { OnOk result ((u : Setup) → MayDoOnBook u journal.old.entries pass call reply self.old →
            BookStands (u.opening self.old.stream) journal.new.entries self.new) }
        ensures stream { self.new.stream ≡ self.old.stream }
        ensures err { OnErr result (Stays journal.old journal.new self.old self.new) }
        ensures sure { takes_memory call ≡ false → IsOk result }
        ensures room { HasRoomToBegin self.old.images → OnOk result (HasRoomToBegin self.new.images) }
    {
        self.own(&call)?;
        let mapped = self.is_mapped_after(journal, &call);
        let room = self.room_for(alloc, &call)?;
        let was = self.valid();
        self.follow(alloc, pass, &call, &reply, mapped)?;
        self.follow_images(room, was);
        journal.push(Entry::Call {
            pass,
            nth: journal.next_call(pass),
            stream: Some(self.stream),
            call,
            outcome: Outcome::Done(reply),
        });
        Ok(())
    }

    /// A noncached store of these bytes of a page is done, and the page's transfer begins. What its end may need is taken
    /// first, so where no memory is found no byte has changed. Answers `NoMemory`, and then the journal is as it was,
    /// and the book stands for it as before.
    pub fn store<Q>(
        &mut self,
        alloc: Global,
        journal: &mut Journal<Q>,
        pass: u32,
        file: FileId,
        page: PageId,
        bytes: Bytes,
    ) -> Result<(), NoMemory>
        requires stream { page.stream ≡ self.old.stream }
        requires reserved { 1 < journal.old.reserved }
        requires may { (u : Setup) × MayStoreAndBegin u journal.old.entries pass file page bytes self.old }
        ensures placed { OnOk result (GainsStore pass file page bytes journal.old journal.new) }
        ensures stands { OnOk result ((u : Setup) →
            MayStoreAndBegin u journal.old.entries pass file page bytes self.old →
            BookStands (u.opening self.old.stream) journal.new.entries self.new) }
        ensures stream { self.new.stream ≡ self.old.stream }
        ensures err { OnErr result (Stays journal.old journal.new self.old self.new) }
    {
        self.parts.images.reserve()?;
        let call = Call::NcStore {
            file,
            page: page.page(),
            bytes,
        };
        self.done(alloc, journal, pass, call, Reply::Unit)?;
        let parts = &mut *self.parts;
        parts.images.began_reserved(parts.contents.valid());
        journal.push(Entry::WriteBegin { pass, page });
        Ok(())
    }

    // Makes the pages owned that a done call changes in place.
    fn own(&mut self, call: &Call) -> Result<(), NoMemory>
        requires may { (reply : Reply) × ((mapped : Bool) × IsDoing call.now reply mapped self.old) }
        ensures owned { OnOk result (OwnsFor self.new call.now) }
        ensures stands { StandsAsBefore self.old self.new }
        ensures images { self.new.images ≡ self.old.images }
        ensures sure { takes_memory call.now ≡ false → IsOk result }
    {
        let parts = &mut *self.parts;
        let truncation = truncation_by(&parts.state, call);
        parts.contents.own(call, truncation)
    }

    // Whether the stream has a shared map after a done call.
    fn is_mapped_after<Q>(&self, journal: &Journal<Q>, call: &Call) -> bool
        ensures { (u : Setup) (pass : ℕ) (reply : Reply) →
            MayDoOnBook u journal.now.entries pass call.now reply self.now →
            result ≡ is_mapped (Did pass call.now reply ∷ history journal.now.entries self.now.stream) }
    {
        match call {
            Call::Initialise { .. } => true,
            Call::Uninitialise { file, truncate } => journal.stays_mapped(*file, *truncate),
            _ => self.parts.contents.has_map(),
        }
    }

    // Room for the pages of the map that a call makes, and none where it makes none.
    fn room_for(&self, alloc: Global, call: &Call) -> Result<Option<Room>, NoMemory>
        ensures room { IfOk result (λ room. (opening : Option (ℕ → List ℕ)) (h : List Effect) →
            ContentsStand opening h self.now.contents → IsMapRoomFor h call.now room) }
        ensures sure { takes_memory call.now ≡ false → IsOk result }
    {
        match call {
            Call::Initialise { quota, .. } if !self.parts.contents.has_map() => {
                Ok(Some(Room::new(alloc, *quota)?))
            }
            _ => Ok(None),
        }
    }

    // The images follow a done call, as the last of it, given the valid data length before it.
    fn follow_images(&mut self, room: Option<Room>, was: u64)
        requires may { ImagesFollow room was self.old }
        ensures stands { (u : Setup) (past : List Entry) (pass : ℕ) (call : Call) (reply : Reply) →
            ImagesMayFollow u past pass call reply room was self.old →
            ImagesStand (Did pass call reply ∷ history past self.old.stream) self.new.images }
        ensures same { self.new ≡ record self.old { images = self.new.images } }
        ensures room { HasRoomToBegin self.old.images → HasRoomToBegin self.new.images }
    {
        let valid = self.parts.contents.valid();
        match room {
            Some(room) => self.parts.images.opened(room, valid),
            None => self.parts.images.done(was, valid),
        }
    }

    // Follows a done call of a pass with all but the images, given whether there is a map after it.
    fn follow(
        &mut self,
        alloc: Global,
        pass: u32,
        call: &Call,
        reply: &Reply,
        mapped: bool,
    ) -> Result<(), NoMemory>
        requires may { IsDoing call.now reply.now mapped self.old }
        requires owned { OwnsFor self.old call.now }
        ensures stands { OnOk result (GoesOnBy pass call.now reply.now mapped self.old self.new) }
        ensures images { self.new.images ≡ self.old.images }
        ensures stream { self.new.stream ≡ self.old.stream }
        ensures err { OnErr result (self.new ≡ self.old) }
        ensures sure { takes_memory call.now ≡ false → IsOk result }
    {
        match call {
            Call::PinnedWrite { at, bytes, .. } => self.write(alloc, pass, call, reply, *at, bytes),
            Call::Map { .. }
            | Call::PinRead { .. }
            | Call::PinMapped { .. }
            | Call::PreparePin { .. }
            | Call::SetDirty { .. }
            | Call::EndHold { .. }
            | Call::Repin { .. }
            | Call::MdlRead { .. }
            | Call::MdlWrite { .. } => self.change_holds(alloc, pass, call, reply, mapped),
            _ => self.leave_holds(alloc, call, reply, mapped),
        }
    }

    // Follows a done pinned write of a pass, of these bytes. They are a list before the holds follow, so what comes after the
    // holds takes no memory.
    fn write(
        &mut self,
        alloc: Global,
        pass: u32,
        call: &Call,
        reply: &Reply,
        at: u64,
        bytes: &Bytes,
    ) -> Result<(), NoMemory>
        requires is { (hold : ℕ) × (call.now ≡ Call.PinnedWrite hold at bytes.now) }
        requires may { (mapped : Bool) × IsDoing call.now reply.now mapped self.old }
        requires owned { OwnsFor self.old call.now }
        ensures stands { OnOk result ((mapped : Bool) → GoesOnBy pass call.now reply.now mapped self.old self.new) }
        ensures images { self.new.images ≡ self.old.images }
        ensures stream { self.new.stream ≡ self.old.stream }
        ensures err { OnErr result (self.new ≡ self.old) }
    {
        let listed = bytes.to_vec(alloc)?;
        let parts = &mut *self.parts;
        let was_mapped = parts.contents.has_map();
        parts.holds.done(pass, call, id_in(reply))?;
        parts.contents.pinned_write(at, &listed);
        parts.set(call, reply, was_mapped);
        Ok(())
    }

    // Follows a done call of a pass that changes the holds, and for which the contents take no memory.
    fn change_holds(
        &mut self,
        alloc: Global,
        pass: u32,
        call: &Call,
        reply: &Reply,
        mapped: bool,
    ) -> Result<(), NoMemory>
        requires contents { contents_take call.now ≡ false }
        requires may { IsDoing call.now reply.now mapped self.old }
        requires owned { OwnsFor self.old call.now }
        ensures stands { OnOk result (GoesOnBy pass call.now reply.now mapped self.old self.new) }
        ensures images { self.new.images ≡ self.old.images }
        ensures stream { self.new.stream ≡ self.old.stream }
        ensures err { OnErr result (self.new ≡ self.old) }
        ensures sure { takes_memory call.now ≡ false → IsOk result }
    {
        let parts = &mut *self.parts;
        let size = parts.state.size();
        let was_mapped = parts.contents.has_map();
        let truncation = truncation_by(&parts.state, call);
        parts.holds.done(pass, call, id_in(reply))?;
        match parts
            .contents
            .done(alloc, call, reply, size, truncation, mapped)
        {
            Ok(()) => (),
            Err(_) => unreachable!(),
        }
        parts.set(call, reply, was_mapped);
        Ok(())
    }

    // Follows a done call that changes no hold.
    fn leave_holds(
        &mut self,
        alloc: Global,
        call: &Call,
        reply: &Reply,
        mapped: bool,
    ) -> Result<(), NoMemory>
        requires holds { changes_holds call.now ≡ false }
        requires may { IsDoing call.now reply.now mapped self.old }
        requires owned { OwnsFor self.old call.now }
        ensures stands { OnOk result ((pass : ℕ) → GoesOnBy pass call.now reply.now mapped self.old self.new) }
        ensures images { self.new.images ≡ self.old.images }
        ensures stream { self.new.stream ≡ self.old.stream }
        ensures err { OnErr result (self.new ≡ self.old) }
        ensures sure { takes_memory call.now ≡ false → IsOk result }
    {
        let parts = &mut *self.parts;
        let size = parts.state.size();
        let was_mapped = parts.contents.has_map();
        let truncation = truncation_by(&parts.state, call);
        parts
            .contents
            .done(alloc, call, reply, size, truncation, mapped)?;
        parts.set(call, reply, was_mapped);
        Ok(())
    }
}

impl BookParts {
    // Follows a done call with what is set for the stream, and with its private maps.
    fn set(&mut self, call: &Call, reply: &Reply, was_mapped: bool)
        ensures same { self.new ≡ record self.old { state = self.new.state; maps = self.new.maps } }
        ensures state { (h : List Effect) (pass : ℕ) → StreamStands h self.old.state → was_mapped ≡ is_mapped h →
            StreamStands (Did pass call.now reply.now ∷ h) self.new.state }
        ensures maps { (h : List Effect) (pass : ℕ) → StreamStands h self.old.state →
            PrivateStands h self.old.maps → PrivateStands (Did pass call.now reply.now ∷ h) self.new.maps }
    {
        let was_open = match call {
            Call::Initialise { file, .. } => self.state.is_open(file.object()),
            _ => false,
        };
        self.state.done(call, was_mapped);
        self.maps.done(call, reply, was_open);
    }
}

// The size that a call sets as an uninitialise, where it is one that sets one.
fn truncation_by(state: &StreamState, call: &Call) -> Option<u64>
    ensures { (h : List Effect) → StreamStands h state.now → result ≡ truncated_by h call.now }
{
    match call {
        Call::Uninitialise { file, truncate } => state.truncation(file.object(), *truncate),
        _ => None,
    }
}
