//! What a line is: an event of its caller, or a call, made of its action and of what the caller's words name.

ghost use Rattle.std.specs.Prelude.{◌≡◌, IfOk, IfErr, IfSome};
ghost use Rattle.std.specs.Option.{option_map};
ghost use Rattle.cc_entry.specs.Kinds.{is_map, is_pin};
ghost use Rattle.cc_entry.specs.declared.call.Call.TheVariants as call;
ghost use Rattle.cc_pieces.specs.Bindings.{hold_named};
ghost use Rattle.cc_pieces.specs.Events.{doing_of};
ghost use Rattle.cc_script.specs.HoldWords.{meets};
ghost use Rattle.cc_event_lines.specs.Doing.{HappensPlainly, IsCopied, IsCopiedIn, call_on_file, call_on_hold, call_on_range, called_on, doing_made, event_in, read_on, written_by};
ghost use Rattle.cc_event_lines.specs.Names.{bindings_in};

use crate::names::NamedHolds;
use cc_effects::Event;
use cc_entry::{Bytes, Call, FileId, NoMemory};
use cc_script::{Action, HoldWord, Need};
use std::alloc::Global;

/// What a line is.
#[derive(Drop)]
pub(crate) enum MadeDoing<Q> {
    /// An event that is no call, and neither defers nor posts a write.
    Happens(Event<Q>),
    Makes(Call),
    /// A write is deferred, with a routine that is yet to be handed in.
    Defers {
        file: FileId,
        bytes: u64,
        retrying: bool,
    },
    Posts,
    /// Its word names no hold that serves.
    NamesNone,
}

/// What a line of a caller is. Want of memory is one of the bytes that it writes or appends.
pub(crate) fn doing_of<Q>(
    alloc: Global,
    me: u32,
    names: &NamedHolds,
    action: &Action,
) -> Result<MadeDoing<Q>, NoMemory>
    ensures ok { IfOk result (λ doing. doing_made me doing ≡ doing_of me (bindings_in names.now.named me) action.now) }
    ensures plain { IfOk result (λ doing. HappensPlainly doing) }
    ensures err { IfErr result (λ e. IsCopied (doing_of me (bindings_in names.now.named me) action.now)) }
{
    if let Some(doing) = event_in(me, action) {
        return Ok(doing);
    }
    if let Some(call) = call_on_range(action) {
        return Ok(MadeDoing::Makes(call));
    }
    if let Some(call) = call_on_file(action) {
        return Ok(MadeDoing::Makes(call));
    }
    match written_by(alloc, me, names, action) {
        Ok(Some(doing)) => Ok(doing),
        Ok(None) => Ok(called_on(call_on_hold(me, names, action))),
        Err(NoMemory) => Err(NoMemory),
    }
}

// A call on a hold, where there is one that serves.
fn called_on<Q>(call: Option<Call>) -> MadeDoing<Q>
    ensures { result ≡ called_on call }
{
    match call {
        Some(call) => MadeDoing::Makes(call),
        None => MadeDoing::NamesNone,
    }
}

// An event of a page, a stream, a log or the queue, which copies no bytes.
fn event_in<Q>(me: u32, action: &Action) -> Option<MadeDoing<Q>>
    ensures made { option_map (doing_made me) result ≡ event_in me action.now }
    ensures plain { IfSome result (λ doing. HappensPlainly doing) }
{
    match *action {
        Action::LogFlush { handle, lsn } => Some(MadeDoing::Happens(Event::LogFlush {
            pass: me,
            handle,
            to: lsn,
        })),
        Action::Fill { page } => Some(MadeDoing::Happens(Event::Fill { pass: me, page })),
        Action::Drop { page } => Some(MadeDoing::Happens(Event::Drop { page })),
        Action::WriteBegin { page } => Some(MadeDoing::Happens(Event::WriteBegin {
            pass: me,
            page,
        })),
        Action::WriteEnd { page } => Some(MadeDoing::Happens(Event::WriteEnd { page })),
        Action::Sync { stream } => Some(MadeDoing::Happens(Event::Sync { pass: me, stream })),
        Action::Scan => Some(MadeDoing::Happens(Event::Scan { pass: me })),
        Action::Defer {
            file,
            bytes,
            retrying,
        } => Some(MadeDoing::Defers {
            file,
            bytes,
            retrying,
        }),
        Action::Post => Some(MadeDoing::Posts),
        _ => None,
    }
}

// A call on bytes or pages of a file.
fn call_on_range(action: &Action) -> Option<Call>
    ensures { result ≡ call_on_range action.now }
{
    match *action {
        Action::CopyRead {
            file,
            at,
            len,
            wait,
        } => Some(Call::CopyRead {
            file,
            at,
            len,
            wait,
        }),
        Action::Zero { file, span } => Some(Call::Zero { file, span }),
        Action::Map { file, at, len, .. } => Some(Call::Map { file, at, len }),
        Action::PinRead {
            file,
            at,
            len,
            exclusive,
            ..
        } => Some(Call::PinRead {
            file,
            at,
            len,
            exclusive,
        }),
        Action::PreparePin {
            file,
            at,
            len,
            zero,
            exclusive,
            ..
        } => Some(Call::PreparePin {
            file,
            at,
            len,
            zero,
            exclusive,
        }),
        Action::MdlRead { file, at, len, .. } => Some(Call::MdlRead { file, at, len }),
        Action::MdlWrite { file, at, len, .. } => Some(Call::MdlWrite { file, at, len }),
        Action::NcReadPage { file, page } => Some(Call::NcRead { file, page }),
        Action::NcWritePage { file, page } => Some(Call::NcWrite { file, page }),
        Action::Flush { file, span } => Some(Call::Flush { file, span }),
        Action::Purge { file, span } => Some(Call::Purge { file, span }),
        Action::Discard { file, span } => Some(Call::Discard { file, span }),
        _ => None,
    }
}

// A call on a file as a whole, or on none.
fn call_on_file(action: &Action) -> Option<Call>
    ensures { result ≡ call_on_file action.now }
{
    match *action {
        Action::Initialise {
            file,
            sizes,
            quota,
            temporary,
        } => Some(Call::Initialise {
            file,
            sizes,
            quota,
            temporary,
        }),
        Action::Uninitialise { file, truncate } => Some(Call::Uninitialise { file, truncate }),
        Action::SetSizes {
            file,
            allocation,
            size,
        } => Some(Call::SetSizes {
            file,
            allocation,
            size,
        }),
        Action::Query(query) => Some(Call::Query(query)),
        Action::SetLog { file, handle } => Some(Call::SetLog { file, handle }),
        Action::SetGranularity { file, bytes } => Some(Call::SetGranularity { file, bytes }),
        Action::SetAttributes {
            file,
            no_read_ahead,
            no_write_behind,
        } => Some(Call::SetAttributes {
            file,
            no_read_ahead,
            no_write_behind,
        }),
        Action::SetThreshold { file, pages } => Some(Call::SetThreshold { file, pages }),
        _ => None,
    }
}

// A call or an event whose bytes are copied, which is done only where its word names a hold.
fn written_by<Q>(
    alloc: Global,
    me: u32,
    names: &NamedHolds,
    action: &Action,
) -> Result<Option<MadeDoing<Q>>, NoMemory>
    ensures ok { IfOk result (λ doing.
        option_map (doing_made me) doing ≡ written_by me (bindings_in names.now.named me) action.now) }
    ensures plain { IfOk result (λ doing. IfSome doing (λ doing. HappensPlainly doing)) }
    ensures err { IfErr result (λ e. IsCopiedIn (written_by me (bindings_in names.now.named me) action.now)) }
{
    match action {
        Action::CopyWrite { file, at, bytes } => {
            let bytes = copy_of(alloc, bytes)?;
            Ok(Some(MadeDoing::Makes(Call::CopyWrite {
                file: *file,
                at: *at,
                bytes,
            })))
        }
        Action::NcStorePage { file, page, bytes } => {
            let bytes = copy_of(alloc, bytes)?;
            Ok(Some(MadeDoing::Makes(Call::NcStore {
                file: *file,
                page: *page,
                bytes,
            })))
        }
        Action::PinnedWrite { word, at, bytes } => {
            let Some(hold) = names.hold(me, *word, Need::Pin) else {
                return Ok(Some(MadeDoing::NamesNone));
            };
            let bytes = copy_of(alloc, bytes)?;
            Ok(Some(MadeDoing::Makes(Call::PinnedWrite {
                hold,
                at: *at,
                bytes,
            })))
        }
        Action::MdlStore { word, at, bytes } => {
            let Some(hold) = names.hold(me, *word, Need::WriteChain) else {
                return Ok(Some(MadeDoing::NamesNone));
            };
            let bytes = copy_of(alloc, bytes)?;
            Ok(Some(MadeDoing::Makes(Call::MdlStore {
                hold,
                at: *at,
                bytes,
            })))
        }
        Action::Append { handle, bytes } => {
            let bytes = copy_of(alloc, bytes)?;
            Ok(Some(MadeDoing::Happens(Event::Append {
                pass: me,
                handle: *handle,
                bytes,
            })))
        }
        _ => Ok(None),
    }
}

// A call on the hold that a word names, where it names one that serves.
fn call_on_hold(me: u32, names: &NamedHolds, action: &Action) -> Option<Call>
    ensures { result ≡ call_on_hold (bindings_in names.now.named me) action.now }
{
    match *action {
        Action::HeldRead { word, at, len } => held_read(me, names, word, at, len),
        Action::PinMapped { word, exclusive } => {
            let hold = names.hold(me, word, Need::Map)?;
            Some(Call::PinMapped { hold, exclusive })
        }
        Action::SetDirty { word, lsn } => {
            let hold = names.hold(me, word, Need::Pin)?;
            Some(Call::SetDirty { hold, lsn })
        }
        Action::Repin { word, .. } => {
            let hold = names.hold(me, word, Need::Pin)?;
            Some(Call::Repin { hold })
        }
        Action::MdlBytes { word, at, len } => {
            let hold = names.hold(me, word, Need::ReadChain)?;
            Some(Call::MdlBytes { hold, at, len })
        }
        Action::Unpin { word } => hold_ended(me, names, word, Need::MapOrPin),
        Action::UnpinRepinned { word, .. } => hold_ended(me, names, word, Need::Repin),
        Action::MdlDone { word } => hold_ended(me, names, word, Need::Chain),
        Action::MdlAbort { word } => hold_ended(me, names, word, Need::WriteChain),
        _ => None,
    }
}

// A read of mapped bytes, or else of pinned ones.
fn held_read(me: u32, names: &NamedHolds, word: HoldWord, at: u64, len: u64) -> Option<Call>
    ensures { result ≡ read_on (hold_named (bindings_in names.now.named me) word is_map)
        (hold_named (bindings_in names.now.named me) word is_pin) at len }
{
    if let Some(hold) = names.hold(me, word, Need::Map) {
        return Some(Call::MappedRead { hold, at, len });
    }
    let hold = names.hold(me, word, Need::Pin)?;
    Some(Call::PinnedRead { hold, at, len })
}

// The end of a hold.
fn hold_ended(me: u32, names: &NamedHolds, word: HoldWord, need: Need) -> Option<Call>
    ensures { result ≡ option_map (λ id. call.EndHold id) (hold_named (bindings_in names.now.named me) word (meets need)) }
{
    let hold = names.hold(me, word, need)?;
    Some(Call::EndHold { hold })
}

// A copy of bytes.
fn copy_of(alloc: Global, bytes: &Bytes) -> Result<Bytes, NoMemory>
    ensures { IfOk result (λ copy. copy ≡ bytes.now) }
{
    Bytes::of(alloc, &bytes.to_vec(alloc)?)
}
