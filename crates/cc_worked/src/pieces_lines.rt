//! What lines leave between two moments: lines on holds, reads of the shim, and the two workers of a phase.

ghost use Rattle.std.specs.Prelude.{◌≡◌, true, false, List, [], ◌∷◌, Some, None};
ghost use Rattle.cc_entry.specs.declared.hold.HoldKind.TheVariants as kind;
ghost use Rattle.cc_entry.specs.declared.call.Call.TheVariants as call;
ghost use Rattle.cc_entry.specs.declared.error.CcError.TheVariants as error;
ghost use Rattle.cc_entry.specs.declared.reply.Reply.TheVariants as reply;
ghost use Rattle.cc_entry.specs.declared.answer.Answer.TheVariants as answer;
ghost use Rattle.cc_entry.specs.declared.entry.Entry.{Entry};
ghost use Rattle.cc_pieces.specs.Bindings.{bound, bindings_pinned};
ghost use Rattle.cc_script.specs.declared.script.ReadPath.TheVariants.{Cached, Noncached};
ghost use Rattle.cc_pieces.specs.Phases.{TicksRan, AheadsRan};
ghost use Rattle.cc_worked.specs.Values.{setup, done, unit, Leaves, LeavesNothing};
ghost use Rattle.cc_worked.specs.PiecesReads.{two_pages, first_resident, a_byte, page_comes_in, page_alone, fill_fails, read_without_waiting};
ghost use Rattle.cc_worked.specs.PiecesNoncached.{repinned, written_through, hold_alone};
ghost use Rattle.cc_worked.specs.PiecesWithoutEntry.{dirty, page_of_tick};
ghost use Rattle.cc_worked.specs.PiecesShim.{ReadBy};
ghost use Rattle.cc_worked.specs.PiecesLines.{word, other_word, one_map, one_of, one_pin, one_repin, one_read_chain, one_write_chain, MakesCall};
ghost use Rattle.cc_worked.specs.PiecesLines.{PinOn, ReadOn, WriteOn, StampOn, UnpinOn, RepinOn, UnrepinOn, ChainReadOn, ChainStoreOn, ChainDoneOn, ChainAbortOn};
ghost use Rattle.cc_worked.specs.PiecesWithoutEntry.{request};
ghost use Rattle.cc_worked.specs.PiecesLines.{mapped, map_ends, pinned_range, repinned_range, read_chain_range, write_chain_range, tick_in, no_request};

/// A word names the hold that an earlier line made; where it names none, the line is answered so and leaves
/// nothing.
pub fn words_decide_what_a_line_leaves()
    ensures no_hold { LeavesNothing (UnpinOn []) answer.NoHold two_pages }
    ensures nothing_left { Leaves (UnpinOn []) answer.NoHold two_pages page_alone → ⊥ }
    ensures ended { Leaves (UnpinOn one_map) unit mapped map_ends }
    ensures has_hold { LeavesNothing (UnpinOn one_map) answer.NoHold mapped → ⊥ }
{}

/// A line that makes a hold binds its word to it, where the hold was made; a pin of a map changes what the word
/// names.
pub fn words_are_bound()
    ensures made { bound word kind.Map (answer.Given (reply.Hold 1)) [] ≡ one_map }
    ensures not_made { bound word kind.Map (answer.Refused error.NotCached) [] ≡ [] }
    ensures pinned { bindings_pinned word (answer.Given (reply.Hold 1)) one_map ≡ one_pin }
    ensures not_pinned { bindings_pinned word (answer.Refused (error.Busy 1)) one_map ≡ one_map }
    ensures no_other { bindings_pinned other_word (answer.Given (reply.Hold 1)) one_map ≡ one_map }
    ensures not_a_map { bound word kind.Pin (answer.Given (reply.Hold 1)) [] ≡ one_map → ⊥ }
{}

/// A line on a hold makes its call on the hold that its word names.
pub fn lines_call_on_their_hold()
    ensures pin_mapped { MakesCall (PinOn one_map) mapped (call.PinMapped 1 false) (reply.Hold 1) }
    ensures map_read { MakesCall (ReadOn one_map) mapped (call.MappedRead 1 0 1) a_byte }
    ensures pin_read { MakesCall (ReadOn one_pin) pinned_range (call.PinnedRead 1 0 1) a_byte }
    ensures written { MakesCall (WriteOn one_pin) pinned_range (call.PinnedWrite 1 0 (171 ∷ [])) reply.Unit }
    ensures stamped { MakesCall (StampOn one_pin (Some 1)) pinned_range (call.SetDirty 1 (Some 1)) reply.Unit }
    ensures repinned { MakesCall (RepinOn one_pin) pinned_range (call.Repin 1) (reply.Hold 2) }
    ensures unrepinned { Leaves (UnrepinOn one_repin false) unit repinned_range (done 1 4 (call.EndHold 2) ∷ []) }
    ensures flushed { Leaves (UnrepinOn one_repin true) unit repinned written_through }
    ensures not_flushed { Leaves (UnrepinOn one_repin true) (answer.Refused error.NoMemory) repinned hold_alone }
    ensures chain_read { MakesCall (ChainReadOn one_read_chain) read_chain_range (call.MdlBytes 1 0 1) a_byte }
    ensures chain_stored { MakesCall (ChainStoreOn one_write_chain)
        write_chain_range (call.MdlStore 1 0 (171 ∷ [])) reply.Unit }
    ensures chain_done { MakesCall (ChainDoneOn one_read_chain) read_chain_range (call.EndHold 1) reply.Unit }
    ensures chain_aborted { MakesCall (ChainAbortOn one_write_chain) write_chain_range (call.EndHold 1) reply.Unit }
    ensures on_no_other_hold { MakesCall (WriteOn one_pin)
        pinned_range (call.PinnedWrite 2 0 (171 ∷ [])) reply.Unit → ⊥ }
    ensures no_other_bytes { MakesCall (WriteOn one_pin)
        pinned_range (call.PinnedWrite 1 0 (172 ∷ [])) reply.Unit → ⊥ }
    ensures no_other_lsn { MakesCall (StampOn one_pin (Some 1)) pinned_range (call.SetDirty 1 (Some 2)) reply.Unit → ⊥ }
    ensures no_other_call { MakesCall (ReadOn one_map) mapped (call.PinnedRead 1 0 1) a_byte → ⊥ }
{}

/// A line is done on a hold of its kind alone: on any other it is answered that there is none, and makes no call.
pub fn lines_want_their_kind_of_hold()
    ensures answered { LeavesNothing (StampOn one_map None) answer.NoHold mapped }
    ensures not_stamped { (new : List Entry) → StampOn one_map None unit mapped new → ⊥ }
    ensures not_pinned { (new : List Entry) → PinOn one_pin (answer.Given (reply.Hold 1)) pinned_range new → ⊥ }
    ensures not_read { (new : List Entry) → ReadOn (one_of kind.Repin) (answer.Given a_byte) pinned_range new → ⊥ }
    ensures not_written { (new : List Entry) → WriteOn one_map unit mapped new → ⊥ }
    ensures not_repinned { (new : List Entry) → RepinOn one_map (answer.Given (reply.Hold 2)) mapped new → ⊥ }
    ensures not_unrepinned { (new : List Entry) → UnrepinOn one_pin false unit pinned_range new → ⊥ }
    ensures chain_not_read { (new : List Entry)
        → ChainReadOn one_write_chain (answer.Given a_byte) write_chain_range new → ⊥ }
    ensures chain_not_stored { (new : List Entry) → ChainStoreOn one_read_chain unit read_chain_range new → ⊥ }
    ensures pin_not_done { (new : List Entry) → ChainDoneOn one_pin unit pinned_range new → ⊥ }
    ensures chain_not_aborted { (new : List Entry) → ChainAbortOn one_read_chain unit read_chain_range new → ⊥ }
{}

/// A read of the shim is the call of its path; one that is too long for it is refused before.
pub fn shim_reads_by_its_path()
    ensures cached { Leaves (ReadBy Cached 0 1) (answer.Given a_byte) two_pages page_comes_in }
    ensures too_long { LeavesNothing (ReadBy Noncached 0 65537) (answer.Refused (error.TooLong 65536)) two_pages }
    ensures fault { Leaves (ReadBy Cached 0 1) (answer.Refused (error.ReadFault 0)) two_pages fill_fails }
    ensures copy_too_long { LeavesNothing (ReadBy Cached 0 1048577) (answer.Refused (error.TooLong 1048576)) two_pages }
    ensures copied_longer { LeavesNothing (ReadBy Cached 0 65537) (answer.Refused (error.TooLong 65536)) two_pages → ⊥ }
    ensures waits { Leaves (ReadBy Cached 0 1) (answer.Given a_byte) first_resident read_without_waiting → ⊥ }
    ensures not_served { Leaves (ReadBy Noncached 0 65537) (answer.Given a_byte) two_pages page_comes_in → ⊥ }
{}

/// The workers' answers are of their phase, and no step comes after one that took no request.
pub fn workers_run_in_their_phase()
    ensures ticked { Leaves (TicksRan setup 32 1) (tick_in 1 ∷ []) dirty page_of_tick }
    ensures of_this_phase { Leaves (TicksRan setup 32 1) (tick_in 2 ∷ []) dirty page_of_tick → ⊥ }
    ensures none { AheadsRan setup 32 1 (no_request ∷ []) [] two_pages two_pages }
    ensures none_is_last { AheadsRan setup 32 1 (no_request ∷ no_request ∷ []) [] two_pages two_pages → ⊥ }
    ensures none_taken { AheadsRan setup 32 1 (no_request ∷ []) (request ∷ []) two_pages two_pages → ⊥ }
{}
