//! What a done call does to the contents of its stream.

ghost use Rattle.std.specs.Prelude.{◌≡◌, ℕ, ◌+◌, ◌*◌, ◌^◌, ◌≤◌, List, ◌∷◌, length, min, max, Bool, true, false, Option, None, Some, OnOk, OnErr, IsOk};
ghost use Rattle.std.specs.Option.{option_map};
ghost use Rattle.cc_entry.specs.Pages.{whole_range};
ghost use Rattle.cc_entry.specs.Place.{File};
ghost use Rattle.cc_entry.specs.Queries.{extent_of_query};
ghost use Rattle.cc_entry.specs.declared.place.FileSizes.{FileSizes};
ghost use Rattle.cc_entry.specs.declared.call.Call.{Call};
ghost use Rattle.cc_entry.specs.declared.call.Call.TheVariants as call;
ghost use Rattle.cc_entry.specs.declared.entry.Entry.{Entry};
ghost use Rattle.cc_entry.specs.declared.entry.Entry.TheVariants as entry;
ghost use Rattle.cc_entry.specs.declared.reply.Outcome.TheVariants as outcome;
ghost use Rattle.cc_entry.specs.declared.reply.Reply.{Reply};
ghost use Rattle.cc_model.specs.Acts.{act_of, Resizes, Writes, Zeroes, Stores, Discards};
ghost use Rattle.cc_model.specs.History.{Effect, Did, history};
ghost use Rattle.cc_model.specs.Setup.{Setup};
ghost use Rattle.cc_model.specs.Touches.{size_of, valid_of, is_mapped};
ghost use Rattle.cc_content.specs.Contents.{ContentsStand};
ghost use Rattle.cc_content.specs.Done.{is_look, UsesBlocks, used_if};
ghost use Rattle.cc_content.specs.Filling.{HasRoomToKeepPage};
ghost use Rattle.cc_content.specs.Following.{MayFollowContents, IsFollowingContents, IsFollowingWrite, IsFollowable, takes_content_memory, Finds, FindsOpen, AllKept, AllMapped, IsCutWithin, span_below, queried_below, looked_range};
ghost use Rattle.cc_content.specs.Owned.{changed_range, AllOwnedAmong, OwnsOnlyAmong, OwnsChanged, OwnsOnlyChanged, SameContents};
ghost use Rattle.cc_resident.specs.Residents.{rest_of_page};

use crate::changes;
use crate::contents::Contents;
use cc_entry::{Bytes, Call, NoMemory, Query, Quota, Reply, Span};
use cc_events::stored_end;
use std::alloc::Global;
use std::cmp::min;

impl Contents {
    /// Makes the pages owned that a done call changes in place, and no other, by a copy of each that is shared.
    /// `truncation` is the size that an uninitialise sets, where it sets one. Answers `NoMemory`, and then no byte has
    /// changed, but some of the pages may be owned.
    pub fn own(&mut self, call: &Call, truncation: Option<u64>) -> Result<(), NoMemory>
        requires may { IsFollowable call.now truncation self.old }
        ensures owned { OnOk result (OwnsChanged self.new call.now truncation) }
        ensures only { OwnsOnlyChanged self.old self.new call.now truncation }
        ensures same { SameContents self.old self.new }
        ensures sure { changed_range call.now truncation ≡ None → IsOk result }
    {
        match call {
            Call::CopyWrite { at, bytes, .. } => self.own_range(*at, *at + bytes.len()),
            Call::PinnedWrite { at, bytes, .. } => self.own_range(*at, *at + bytes.len()),
            Call::MdlStore { at, bytes, .. } => self.own_range(*at, *at + bytes.len()),
            Call::Zero { span, .. } => self.own_range(span.from(), span.to()),
            Call::PreparePin { at, len, zero, .. } => {
                if *zero {
                    self.own_range(*at, *at + *len)
                } else {
                    Ok(())
                }
            }
            Call::SetSizes { size, .. } => self.own_rest(*size),
            Call::Uninitialise { .. } => match truncation {
                Some(size) => self.own_rest(size),
                None => Ok(()),
            },
            _ => Ok(()),
        }
    }

    /// Follows a call of the stream that was done, which finds the pages owned that it changes in place. `size`
    /// is the size before it, `truncation` the size that an uninitialise sets, where it sets one, and `mapped`
    /// says whether there is a map after it. Only an initialise that makes the map, a set of sizes, a noncached
    /// store and a write take memory; a write has its bytes in a `Vec` for as long as this takes. Answers `NoMemory`,
    /// and then nothing has changed.
    pub fn done(
        &mut self,
        alloc: Global,
        call: &Call,
        reply: &Reply,
        size: u64,
        truncation: Option<u64>,
        mapped: bool,
    ) -> Result<(), NoMemory>
        requires may { IsFollowingContents call.now reply.now self.old size truncation mapped }
        requires owned { OwnsChanged self.old call.now truncation }
        ensures stands { OnOk result ((u : Setup) (past : List Entry) (pass nth s : ℕ) →
            MayFollowContents u past pass nth s call.now reply.now self.old size truncation mapped →
            ContentsStand (u.opening s)
            (history (entry.Call pass nth (Some s) call.now (outcome.Done reply.now) ∷ past) s) self.new) }
        ensures err { OnErr result (self.new ≡ self.old) }
        ensures sure { takes_content_memory call.now ≡ false → IsOk result }
    {
        if is_look(call) {
            self.looked(looked_range(call, reply, size));
            return Ok(());
        }
        match call {
            Call::Initialise { sizes, quota, .. } => {
                self.opened(alloc, *quota, sizes.size, sizes.valid)
            }
            Call::SetSizes { size, .. } => self.resized(*size),
            Call::CopyWrite { at, bytes, .. } => self.wrote(alloc, *at, bytes, true),
            Call::PinnedWrite { at, bytes, .. } => self.wrote(alloc, *at, bytes, false),
            Call::MdlStore { at, bytes, .. } => self.wrote(alloc, *at, bytes, false),
            Call::NcStore { page, bytes, .. } => self.stored(alloc, *page, bytes, size),
            Call::Uninitialise { .. } => {
                self.closed(truncation, mapped);
                Ok(())
            }
            Call::Zero { span, .. } => {
                self.zeroed(span.from(), span.to());
                Ok(())
            }
            Call::PreparePin { at, len, .. } => {
                self.zeroed(*at, *at + *len);
                Ok(())
            }
            Call::Discard { span, .. } => {
                self.dropped(*span);
                Ok(())
            }
            _ => unreachable!(),
        }
    }

    /// Follows a done pinned write of these bytes from a place on, as `done` does, and takes no memory.
    pub fn pinned_write(&mut self, at: u64, bytes: &[u8])
        requires may { IsFollowingWrite at bytes.now self.old }
        requires owned { AllOwnedAmong self.old.pages (Some (whole_range at (length bytes.now))) }
        ensures stands { (u : Setup) (past : List Entry) (pass nth s hold : ℕ) (reply : Reply) (size : ℕ)
            (truncation : Option ℕ) (mapped : Bool) →
            MayFollowContents u past pass nth s (call.PinnedWrite hold at bytes.now) reply self.old size truncation mapped →
            ContentsStand (u.opening s) (history
            (entry.Call pass nth (Some s) (call.PinnedWrite hold at bytes.now) (outcome.Done reply) ∷ past) s) self.new }
    {
        self.put(at, bytes, false);
    }

    // Makes the pages of a range owned.
    fn own_range(&mut self, from: u64, to: u64) -> Result<(), NoMemory>
        ensures owned { OnOk result (AllOwnedAmong self.new.pages (Some (record { from = from; to = to }))) }
        ensures only { OwnsOnlyAmong self.old.pages self.new.pages (Some (record { from = from; to = to })) }
        ensures same { SameContents self.old self.new }
    {
        match &mut self.pages {
            Some(pages) => pages.own_range(from, to),
            None => Ok(()),
        }
    }

    // Makes the page owned that has bytes on both sides of a size.
    fn own_rest(&mut self, size: u64) -> Result<(), NoMemory>
        ensures owned { OnOk result (AllOwnedAmong self.new.pages (Some (rest_of_page size))) }
        ensures only { OwnsOnlyAmong self.old.pages self.new.pages (Some (rest_of_page size)) }
        ensures same { SameContents self.old self.new }
    {
        match &mut self.pages {
            Some(pages) => pages.own_rest(size),
            None => Ok(()),
        }
    }

    /// Follows an initialise, with this size and valid data length where it makes the map. One that joins a
    /// map changes nothing.
    fn opened(&mut self, alloc: Global, quota: Quota, size: u64, valid: u64) -> Result<(), NoMemory>
        ensures stands { OnOk result ((opening : Option (ℕ → List ℕ)) (h : List Effect) (pass : ℕ)
            (file : File) (sizes : FileSizes) (temporary : Bool) (reply : Reply) →
            ContentsStand opening h self.old → sizes.size ≡ size → sizes.valid ≡ valid →
            ContentsStand opening (Did pass (call.Initialise file sizes quota temporary) reply ∷ h) self.new) }
        ensures err { OnErr result (self.new ≡ self.old) }
    {
        if self.has_map() {
            return Ok(());
        }
        self.open(alloc, quota, size, valid)
    }

    /// Follows an uninitialise, given the size that it sets, where it sets one; the pages go where there is
    /// no map after it.
    fn closed(&mut self, truncation: Option<u64>, mapped: bool)
        requires within { IsCutWithin self.old.pages truncation }
        requires owned { AllOwnedAmong self.old.pages (option_map rest_of_page truncation) }
        ensures { (opening : Option (ℕ → List ℕ)) (h : List Effect) (pass : ℕ) (call : Call) (reply : Reply) →
            FindsOpen opening h call truncation self.old → mapped ≡ is_mapped (Did pass call reply ∷ h) →
            ContentsStand opening (Did pass call reply ∷ h) self.new }
    {
        match truncation {
            Some(size) => self.truncated(size),
            None => (),
        }
        if !mapped {
            self.drop_pages();
        }
    }

    /// Follows an uninitialise that sets the size, where the map stays.
    fn truncated(&mut self, size: u64)
        requires within { IsCutWithin self.old.pages (Some size) }
        requires owned { AllOwnedAmong self.old.pages (Some (rest_of_page size)) }
        ensures stands { (opening : Option (ℕ → List ℕ)) (h : List Effect) (pass : ℕ) (call : Call)
            (reply : Reply) →
            FindsOpen opening h call (Some size) self.old → is_mapped (Did pass call reply ∷ h) ≡ true →
            ContentsStand opening (Did pass call reply ∷ h) self.new }
        ensures valid { self.new.valid ≡ min self.old.valid size }
    {
        match &mut self.pages {
            Some(pages) => changes::truncated(pages, size),
            None => (),
        }
        self.lower(size);
    }

    /// Follows a set of sizes. Only growth takes memory.
    fn resized(&mut self, size: u64) -> Result<(), NoMemory>
        requires { AllOwnedAmong self.old.pages (Some (rest_of_page size)) }
        ensures stands { OnOk result ((opening : Option (ℕ → List ℕ)) (h : List Effect) (pass : ℕ)
            (call : Call) (reply : Reply) (allocation : ℕ) →
            Finds opening h pass call reply self.old → act_of call ≡ Resizes allocation size →
            ContentsStand opening (Did pass call reply ∷ h) self.new) }
        ensures err { OnErr result (self.new ≡ self.old) }
    {
        match &mut self.pages {
            Some(pages) => changes::resized(pages, size)?,
            None => (),
        }
        self.lower(size);
        Ok(())
    }

    /// Follows a write of bytes, which are a `Vec` for as long as this takes.
    fn wrote(&mut self, alloc: Global, at: u64, bytes: &Bytes, uses: bool) -> Result<(), NoMemory>
        requires kept { AllKept self.old.pages (whole_range at (length bytes.now)) }
        requires owned { AllOwnedAmong self.old.pages (Some (whole_range at (length bytes.now))) }
        requires fits { at + length bytes.now ≤ 2 ^ 63 }
        ensures stands { OnOk result ((opening : Option (ℕ → List ℕ)) (h : List Effect) (pass : ℕ)
            (call : Call) (reply : Reply) →
            Finds opening h pass call reply self.old → act_of call ≡ Writes at bytes.now →
            UsesBlocks h pass call reply (used_if uses (whole_range at (length bytes.now))) → at ≤ valid_of h →
            ContentsStand opening (Did pass call reply ∷ h) self.new) }
        ensures err { OnErr result (self.new ≡ self.old) }
    {
        let bytes = bytes.to_vec(alloc)?;
        self.put(at, &bytes, uses);
        Ok(())
    }

    /// Follows a write of bytes, which begins at the valid data length or below it.
    fn put(&mut self, at: u64, bytes: &[u8], uses: bool)
        requires kept { AllKept self.old.pages (whole_range at (length bytes.now)) }
        requires owned { AllOwnedAmong self.old.pages (Some (whole_range at (length bytes.now))) }
        requires fits { at + length bytes.now ≤ 2 ^ 63 }
        ensures { (opening : Option (ℕ → List ℕ)) (h : List Effect) (pass : ℕ) (call : Call) (reply : Reply) →
            Finds opening h pass call reply self.old → act_of call ≡ Writes at bytes.now →
            UsesBlocks h pass call reply (used_if uses (whole_range at (length bytes.now))) → at ≤ valid_of h →
            ContentsStand opening (Did pass call reply ∷ h) self.new }
    {
        match &mut self.pages {
            Some(pages) => changes::written(pages, at, bytes, uses),
            None => (),
        }
        self.raise(at + bytes.len() as u64);
    }

    /// Follows a zeroing of a range, which begins at the valid data length or below it, and a use of its
    /// blocks.
    fn zeroed(&mut self, from: u64, to: u64)
        requires mapped { AllMapped self.old.pages (Some (record { from = from; to = to })) }
        requires owned { AllOwnedAmong self.old.pages (Some (record { from = from; to = to })) }
        ensures { (opening : Option (ℕ → List ℕ)) (h : List Effect) (pass : ℕ) (call : Call) (reply : Reply) →
            Finds opening h pass call reply self.old → act_of call ≡ Zeroes from to →
            UsesBlocks h pass call reply (Some (record { from = from; to = to })) → from ≤ valid_of h →
            ContentsStand opening (Did pass call reply ∷ h) self.new }
    {
        match &mut self.pages {
            Some(pages) => changes::zeroed(pages, from, to),
            None => (),
        }
        self.raise(to);
    }

    /// Follows a noncached store of the bytes of a page.
    fn stored(&mut self, alloc: Global, page: u64, bytes: &Bytes, size: u64) -> Result<(), NoMemory>
        requires room { HasRoomToKeepPage self.old page }
        requires whole { length bytes.now ≡ 4096 }
        ensures stands { OnOk result ((opening : Option (ℕ → List ℕ)) (h : List Effect) (pass : ℕ)
            (call : Call) (reply : Reply) →
            Finds opening h pass call reply self.old → act_of call ≡ Stores page bytes.now →
            size ≡ size_of h → 4096 * page ≤ valid_of h → valid_of h ≤ size_of h →
            ContentsStand opening (Did pass call reply ∷ h) self.new) }
        ensures err { OnErr result (self.new ≡ self.old) }
    {
        let listed = bytes.to_vec(alloc)?;
        let mut frame = [0; 4096];
        frame.copy_from_slice(&listed);
        self.put_page(page, &frame, size)
    }

    /// Follows a noncached store of a page of a stream of this size, which starts at the valid data length or
    /// below it, and a use of its block.
    fn put_page(&mut self, page: u64, bytes: &[u8; 4096], size: u64) -> Result<(), NoMemory>
        requires { HasRoomToKeepPage self.old page }
        ensures stands { OnOk result ((opening : Option (ℕ → List ℕ)) (h : List Effect) (pass : ℕ)
            (call : Call) (reply : Reply) →
            Finds opening h pass call reply self.old → act_of call ≡ Stores page bytes.now →
            size ≡ size_of h → 4096 * page ≤ valid_of h → valid_of h ≤ size_of h →
            ContentsStand opening (Did pass call reply ∷ h) self.new) }
        ensures err { OnErr result (self.new ≡ self.old) }
    {
        match &mut self.pages {
            Some(pages) => changes::stored(pages, page, bytes)?,
            None => unreachable!(),
        }
        self.raise(stored_end(page, size) as u64);
        Ok(())
    }

    /// Follows a discard: the pages of the span go, all of them where there is none.
    fn dropped(&mut self, span: Option<Span>)
        ensures { (opening : Option (ℕ → List ℕ)) (h : List Effect) (pass : ℕ) (call : Call) (reply : Reply) →
            Finds opening h pass call reply self.old → act_of call ≡ Discards span →
            ContentsStand opening (Did pass call reply ∷ h) self.new }
    {
        match &mut self.pages {
            Some(pages) => changes::dropped(pages, span),
            None => (),
        }
    }

    /// Follows a call that changes no byte, size or page, and uses the blocks of a range or none.
    fn looked(&mut self, used: Option<Span>)
        requires { AllMapped self.old.pages used }
        ensures { (opening : Option (ℕ → List ℕ)) (h : List Effect) (pass : ℕ) (call : Call) (reply : Reply) →
            Finds opening h pass call reply self.old →
            is_look (act_of call) ≡ true → UsesBlocks h pass call reply used →
            ContentsStand opening (Did pass call reply ∷ h) self.new }
    {
        match &mut self.pages {
            Some(pages) => changes::looked(pages, used),
            None => (),
        }
    }

    // The valid data length rises to a place, where it was below it.
    fn raise(&mut self, to: u64)
        ensures { self.new ≡ record self.old { valid = max self.old.valid to } }
    {
        if self.valid < to {
            self.valid = to;
        }
    }

    // The valid data length falls to a place, where it was past it.
    fn lower(&mut self, to: u64)
        ensures { self.new ≡ record self.old { valid = min self.old.valid to } }
    {
        if to < self.valid {
            self.valid = to;
        }
    }
}

// Whether a call changes no byte, size or page.
fn is_look(call: &Call) -> bool
    ensures { result ≡ is_look (act_of call.now) }
{
    match call {
        Call::Initialise { .. } => false,
        Call::Uninitialise { .. } => false,
        Call::CopyWrite { .. } => false,
        Call::Zero { .. } => false,
        Call::PreparePin { zero, .. } => !*zero,
        Call::PinnedWrite { .. } => false,
        Call::MdlStore { .. } => false,
        Call::NcStore { .. } => false,
        Call::SetSizes { .. } => false,
        Call::Discard { .. } => false,
        Call::CopyRead { .. }
        | Call::Map { .. }
        | Call::PinRead { .. }
        | Call::PinMapped { .. }
        | Call::MappedRead { .. }
        | Call::PinnedRead { .. }
        | Call::SetDirty { .. }
        | Call::EndHold { .. }
        | Call::Repin { .. }
        | Call::MdlRead { .. }
        | Call::MdlWrite { .. }
        | Call::MdlBytes { .. }
        | Call::NcRead { .. }
        | Call::NcWrite { .. }
        | Call::Flush { .. }
        | Call::Purge { .. }
        | Call::SetLog { .. }
        | Call::SetGranularity { .. }
        | Call::SetAttributes { .. }
        | Call::SetThreshold { .. }
        | Call::AskAhead { .. }
        | Call::AheadStep { .. }
        | Call::Query(_) => true,
    }
}

// The range whose blocks a call uses that changes nothing, in a stream of this size.
fn looked_range(call: &Call, reply: &Reply, size: u64) -> Option<Span>
    ensures { result ≡ looked_range size call.now reply.now }
{
    match call {
        Call::CopyRead { at, len, .. } => span_below(*at, *len, size),
        Call::Map { at, len, .. } => span_below(*at, *len, size),
        Call::PinRead { at, len, .. } => span_below(*at, *len, size),
        Call::PreparePin { at, len, .. } => span_below(*at, *len, size),
        Call::MdlRead { at, len, .. } => span_below(*at, *len, size),
        Call::MdlWrite { at, len, .. } => span_below(*at, *len, size),
        Call::AheadStep { request } => match reply {
            Reply::Whole(false) => None,
            _ => span_below(request.at, request.len, size),
        },
        Call::Query(query) => queried_below(query, size),
        _ => None,
    }
}

// The bytes that a query needs, as far as they lie below the size.
fn queried_below(query: &Query, size: u64) -> Option<Span>
    ensures { result ≡ queried_below size (extent_of_query query.now) }
{
    let (at, len) = query.extent()?;
    span_below(at, len, size)
}

// `len` bytes from `at` on, as far as they lie below the size, where they begin there.
fn span_below(at: u64, len: u64, size: u64) -> Option<Span>
    ensures { result ≡ span_below size at len }
{
    Span::new(at, min(at.saturating_add(len), size))
}
