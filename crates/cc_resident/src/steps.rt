//! Steps on the mapped blocks, some of which may leave a block with no page.

ghost use Rattle.std.specs.Prelude.{◌≡◌, ◌≢◌, ℕ, ◌+◌, ◌-◌, ◌*◌, ◌/◌, ◌%◌, ◌^◌, ◌<◌, ◌≤◌, ◌==◌, ◌&&◌, not, nat_eq, [], ◌∷◌, length, IsSome, OnOk, OnErr, IfOk, None, Some, is_some, true, false, IfSome, if◌then◌else◌};
ghost use Rattle.std.specs.List.{filter, find, list_any, range_with_len, IsDistinct};
ghost use Rattle.cc_entry.specs.Pages.{block_of};
ghost use Rattle.cc_pages.specs.Pages.{owned, page_at as page_in, bytes_at, is_owned, overwritten, KeepsOtherFrames};
ghost use Rattle.cc_views.specs.Views.{frames_at, ViewsAreSound};
ghost use Rattle.cc_resident.specs.Residents.{frame_at, page_bytes_at, is_resident, shares, is_shared, blocks, has_pages, used, order_without};
ghost use Rattle.cc_resident.specs.Changes.{Puts, KeepsFrames, SameBytes, StaysOwned, SharesOnly, OwnsBetween, Clears, is_number_between};

use cc_entry::NoMemory;
use cc_pages::{Frame, Frames};
use cc_views::Views;
use std::cmp::{max, min};

// Makes a page of a block that is not mapped these bytes.
pub(crate) fn add(views: &mut Views, page: u64, bytes: &[u8; 4096]) -> Result<(), NoMemory>
    requires starts { 4096 * page < views.old.size }
    requires room { length (blocks views.old) < views.old.quota }
    requires unmapped { frames_at views.old (block_of page) ≡ None }
    ensures page { OnOk result (Puts views.old views.new page (Some (owned bytes.now))) }
    ensures blocks { OnOk result (blocks views.new ≡ used (block_of page ∷ []) (blocks views.old)) }
    ensures err { OnErr result (views.new ≡ views.old) }
{
    views.add(page / 64)?;
    match put(views, page, bytes) {
        Ok(()) => Ok(()),
        Err(_) => {
            let _frames = views.remove(page / 64);
            Err(NoMemory)
        }
    }
}

// Makes a page of a mapped block these bytes, and notes a use of the block.
pub(crate) fn renew(views: &mut Views, page: u64, bytes: &[u8; 4096]) -> Result<(), NoMemory>
    requires { IsSome (frames_at views.old (block_of page)) }
    ensures page { OnOk result (Puts views.old views.new page (Some (owned bytes.now))) }
    ensures blocks { OnOk result (blocks views.new ≡ used (block_of page ∷ []) (blocks views.old)) }
    ensures err { OnErr result (views.new ≡ views.old) }
{
    put(views, page, bytes)?;
    use_block(views, page / 64);
    Ok(())
}

// Writes bytes over those of a page that is owned.
pub(crate) fn overwrite(views: &mut Views, page: u64, at: u16, bytes: &[u8])
    requires owned { is_owned (frame_at views.old page) ≡ true }
    requires fits { at + length bytes.now ≤ 4096 }
    ensures page { IfSome (frame_at views.old page)
        (λ frame. Puts views.old views.new page (Some (owned (overwritten frame.bytes at bytes.now)))) }
    ensures blocks { blocks views.new ≡ blocks views.old }
{
    match views.frames_mut(page / 64) {
        Some(frames) => frames.write((page % 64) as u8, at, bytes),
        None => unreachable!(),
    }
}

// Makes a snapshot of a page, where it is resident.
pub(crate) fn share(views: &mut Views, page: u64) -> Result<Option<Frame>, NoMemory>
    ensures snapshot { IfOk result (λ frame. frame ≡ page_bytes_at views.old page) }
    ensures bytes { SameBytes views.old views.new }
    ensures others { SharesOnly views.old views.new page }
{
    match views.frames_mut(page / 64) {
        Some(frames) => match frames.share((page % 64) as u8) {
            Ok(frame) => Ok(frame),
            Err(_) => Err(NoMemory),
        },
        None => Ok(None),
    }
}

// Makes the pages from one up to, and without, another owned, where they are resident.
pub(crate) fn own_span(views: &mut Views, from: u64, to: u64) -> Result<(), NoMemory>
    ensures owned { OnOk result ((p : ℕ) → from ≤ p → p < to → is_shared views.new p ≡ false) }
    ensures bytes { SameBytes views.old views.new }
    ensures stays { StaysOwned views.old views.new }
    ensures only { OwnsBetween views.old views.new from to }
{
    // The size is what says that the numbers of the pages are in range.
    let _size = views.size();
    for place in 0..views.len() {
        let block = views.block_at(place);
        own_in_block(views, block, from, to)?;
    }
    Ok(())
}

// Notes a use of a mapped block.
pub(crate) fn use_block(views: &mut Views, block: u64)
    requires { IsSome (frames_at views.old block) }
    ensures pages { KeepsFrames views.old views.new }
    ensures blocks { blocks views.new ≡ used (block ∷ []) (blocks views.old) }
{
    // The number of blocks is what says that none is mapped twice.
    let _count = views.len();
    views.touch(block);
}

// Takes a page out of its block, where it is resident.
pub(crate) fn clear(views: &mut Views, page: u64)
    ensures page { Puts views.old views.new page None }
    ensures blocks { blocks views.new ≡ blocks views.old }
{
    if let Some(frames) = views.frames_mut(page / 64) {
        frames.clear((page % 64) as u8);
    }
}

// Takes the pages from one up to, and without, another out of their blocks, which stay.
pub(crate) fn clear_span(views: &mut Views, from: u64, to: u64)
    ensures pages { Clears views.old views.new (is_number_between from to) }
    ensures blocks { blocks views.new ≡ blocks views.old }
{
    // The size is what says that the numbers of the pages are in range.
    let _size = views.size();
    for place in 0..views.len() {
        let block = views.block_at(place);
        clear_in_block(views, block, from, to);
    }
}

// Gives up each block that has no page.
pub(crate) fn drop_empty(views: &mut Views)
    ensures pages { KeepsFrames views.old views.new }
    ensures blocks { blocks views.new ≡ filter (has_pages views.old) (blocks views.old) }
{
    let mut place = views.len();
    while place > 0 {
        place -= 1;
        let block = views.block_at(place);
        drop_if_empty(views, block);
    }
}

// Gives up a block that has no page.
pub(crate) fn drop_if_empty(views: &mut Views, block: u64)
    ensures distinct { IsDistinct nat_eq (blocks views.old) }
    ensures pages { KeepsFrames views.old views.new }
    ensures blocks { blocks views.new
        ≡ (if has_pages views.old block then blocks views.old else order_without block (blocks views.old)) }
{
    if !has_page(views, block) {
        let _frames = views.remove(block);
    }
}

fn put(views: &mut Views, page: u64, bytes: &[u8; 4096]) -> Result<(), NoMemory>
    requires { IsSome (frames_at views.old (block_of page)) }
    ensures page { OnOk result (Puts views.old views.new page (Some (owned bytes.now))) }
    ensures blocks { blocks views.new ≡ blocks views.old }
    ensures err { OnErr result (views.new ≡ views.old) }
{
    match views.frames_mut(page / 64) {
        Some(frames) => match frames.put((page % 64) as u8, bytes) {
            Ok(()) => Ok(()),
            Err(_) => Err(NoMemory),
        },
        None => unreachable!(),
    }
}

fn own_in_block(views: &mut Views, block: u64, from: u64, to: u64) -> Result<(), NoMemory>
    requires { block < 2 ^ 46 }
    ensures owned { OnOk result ((p : ℕ) → block_of p ≡ block → from ≤ p → p < to →
        is_shared views.new p ≡ false) }
    ensures bytes { SameBytes views.old views.new }
    ensures stays { StaysOwned views.old views.new }
    ensures only { OwnsBetween views.old views.new from to }
{
    for page in max(64 * block, from)..min(64 * block + 64, to) {
        own(views, page)?;
    }
    Ok(())
}

// Makes a page owned, where it is resident.
fn own(views: &mut Views, page: u64) -> Result<(), NoMemory>
    ensures owned { OnOk result (is_shared views.new page ≡ false) }
    ensures bytes { SameBytes views.old views.new }
    ensures stays { StaysOwned views.old views.new }
    ensures only { SharesOnly views.old views.new page }
{
    match views.frames_mut(page / 64) {
        Some(frames) => own_in(frames, (page % 64) as u8),
        None => Ok(()),
    }
}

fn own_in(frames: &mut Frames, i: u8) -> Result<(), NoMemory>
    requires { i < 64 }
    ensures owned { OnOk result (shares (page_in frames.new i) ≡ false) }
    ensures bytes { bytes_at frames.new i ≡ bytes_at frames.old i }
    ensures others { KeepsOtherFrames frames.old frames.new i }
    ensures err { OnErr result (frames.new ≡ frames.old) }
{
    if frames.get(i).is_none() {
        return Ok(());
    }
    match frames.own(i) {
        Ok(()) => Ok(()),
        Err(_) => Err(NoMemory),
    }
}

fn clear_in_block(views: &mut Views, block: u64, from: u64, to: u64)
    requires { block < 2 ^ 46 }
    ensures pages { Clears views.old views.new (λ p. block_of p == block && is_number_between from to p) }
    ensures blocks { blocks views.new ≡ blocks views.old }
{
    for page in 64 * block..64 * block + 64 {
        clear_if_between(views, page, from, to);
    }
}

fn clear_if_between(views: &mut Views, page: u64, from: u64, to: u64)
    ensures pages { Clears views.old views.new (λ p. p == page && is_number_between from to p) }
    ensures blocks { blocks views.new ≡ blocks views.old }
{
    if from <= page && page < to {
        clear(views, page);
    }
}

// The least page from one up to, and without, another that is not resident; all are of one block.
pub(crate) fn absent_in_block(views: &Views, from: u64, to: u64) -> Option<u64>
    requires { to ≤ 64 * block_of from + 64 }
    ensures { result ≡ find (λ p. not (is_resident views.now p)) (range_with_len from (to - from)) }
{
    match views.frames(from / 64) {
        Some(frames) => {
            for page in from..to {
                if frames.get((page % 64) as u8).is_none() {
                    return Some(page);
                }
            }
            None
        }
        None => (from < to).then_some(from),
    }
}

// Whether a block has a resident page.
fn has_page(views: &Views, block: u64) -> bool
    ensures has { result ≡ has_pages views.now block }
    ensures sound { ViewsAreSound views.now }
{
    match views.frames(block) {
        Some(frames) => any_page(frames),
        None => false,
    }
}

fn any_page(frames: &Frames) -> bool
    ensures { result ≡ list_any (λ i. is_some (bytes_at frames.now i)) (range_with_len 0 64) }
{
    for i in 0..64 {
        if frames.get(i).is_some() {
            return true;
        }
    }
    false
}
