//! A page that is read or stored by a noncached call: the entry of a read that ends, and the bytes that go to the disk.

ghost use Rattle.std.specs.Prelude.{◌≡◌, ℕ, ◌*◌, ◌<◌, ◌∷◌, [], List, Option, IfOk, OnErr, length, slice_index};
ghost use Rattle.cc_entry.specs.declared.call.Call.TheVariants as call;
ghost use Rattle.cc_entry.specs.declared.entry.Entry.{Entry};
ghost use Rattle.cc_entry.specs.declared.reply.Outcome.TheVariants as outcome;
ghost use Rattle.cc_book.specs.Book.{BookStands, Stays};
ghost use Rattle.cc_model.specs.History.{history};
ghost use Rattle.cc_model.specs.Setup.{Setup};
ghost use Rattle.cc_model.specs.Touches.{size_of};
ghost use Rattle.cc_world.specs.Calls.{CallWent};
ghost use Rattle.cc_world.specs.Uncached.{IsImage, MayEndRead};
ghost use Rattle.cc_effects.specs.Events.{call_entry};

use crate::copies::copy_of;
use crate::ends::done;
use cc_book::Book;
use cc_content::cleared;
use cc_entry::{Bytes, Call, FileId, NoMemory, PageId, Reply};
use cc_journal::Journal;
use cc_pages::{Frame, Frames};
use std::alloc::Global;

/// Places the entry of the read of a page that may end now, and for whose entry a place is reserved. Answers what stands
/// in the entry.
pub(crate) fn finish_read<Q>(
    alloc: Global,
    book: &mut Book,
    journal: &mut Journal<Q>,
    pass: u32,
    file: FileId,
    page: u64,
    raw: &[u8; 4096],
) -> Result<Reply, NoMemory>
    requires may { (u : Setup) × MayEndRead u pass file page raw.now book.old journal.old }
    ensures done { IfOk result (λ reply. (u : Setup) → MayEndRead u pass file page raw.now book.old journal.old →
        CallWent u (call_entry journal.old.entries pass (call.NcRead file page) (outcome.Done reply) ∷ [])
        book.old book.new journal.old journal.new) }
    ensures err { OnErr result (Stays journal.old journal.new book.old book.new) }
{
    let reply = Reply::Read(book.read_noncached(alloc, page, raw)?);
    let copy = copy_of(alloc, &reply)?;
    done(
        alloc,
        book,
        journal,
        pass,
        Call::NcRead { file, page },
        reply,
    )?;
    Ok(copy)
}

/// The bytes of a page as they go to the disk that is stored so: zeros from the size on.
pub(crate) fn image_of(
    alloc: Global,
    book: &Book,
    page: PageId,
    bytes: &Bytes,
) -> Result<Frame, NoMemory>
    requires whole { length bytes.now ≡ 4096 }
    requires below { (opening : Option (ℕ → List ℕ)) × (past : List Entry) × BookStands opening past book.now
        × (4096 * page.page < size_of (history past book.now.stream)) }
    ensures { IfOk result (λ image. (opening : Option (ℕ → List ℕ)) (past : List Entry) → BookStands opening past book.now →
        IsImage (size_of (history past book.now.stream)) page.page bytes.now image) }
{
    let listed = bytes.to_vec(alloc)?;
    let mut stored = [0; 4096];
    stored.copy_from_slice(&listed);
    frame_of(alloc, &cleared(&stored, book.size() - 4096 * page.page()))
}

// A frame of these bytes.
fn frame_of(alloc: Global, bytes: &[u8; 4096]) -> Result<Frame, NoMemory>
    ensures { IfOk result (λ frame. frame ≡ bytes.now) }
{
    let Ok(mut frames) = Frames::new(alloc) else {
        return Err(NoMemory);
    };
    let Ok(()) = frames.put(0, bytes) else {
        return Err(NoMemory);
    };
    match frames.share(0) {
        Ok(Some(frame)) => Ok(frame),
        Ok(None) => unreachable!(),
        Err(_) => Err(NoMemory),
    }
}
