//! What the calls of the shim leave between two moments: writes, updates, and reads that hold what they read.

ghost use Rattle.std.specs.Prelude.{◌≡◌, ℕ, ◌<◌, true, false, List, [], ◌∷◌, length};
ghost use Rattle.cc_entry.specs.declared.call.Call.TheVariants as call;
ghost use Rattle.cc_entry.specs.declared.error.CcError.TheVariants as error;
ghost use Rattle.cc_entry.specs.declared.answer.Answer.TheVariants as answer;
ghost use Rattle.cc_entry.specs.declared.entry.Entry.{Entry};
ghost use Rattle.cc_script.specs.declared.script.ReadPath.TheVariants.{Mapped, Pinned, Descriptor, Noncached};
ghost use Rattle.cc_pieces.specs.Shim.{zeroings, update_record_of_file};
ghost use Rattle.cc_worked.specs.Values.{a, unit, gives, Leaves, LeavesNothing};
ghost use Rattle.cc_worked.specs.PiecesReads.{one_valid, two_pages};
ghost use Rattle.cc_worked.specs.PiecesShim.{ReadBy, WriteOf, ByteWrite, ByteUpdate, writes_at, calls_of_write};
ghost use Rattle.cc_worked.specs.PiecesShim.{one_page_valid, allocated, extends, zeroes_part, grows, stops_short, leaves_gap, zeroes_last, asks_nothing};
ghost use Rattle.cc_worked.specs.PiecesShim.{asked, extension_is_refused, goes_on, state_is_refused};
ghost use Rattle.cc_worked.specs.PiecesShim.{logged, logged_state, its_record, record_of_two, turned_record, updates_with, updates_unlogged, stamps_first, stays_pinned};
ghost use Rattle.cc_worked.specs.PiecesShim.{nothing_changes, unlogged_state, nothing_behind, log_fails, log_fails_pinned, changes_all_the_same, changes_unstamped, record_alone, pin_is_refused};
ghost use Rattle.cc_worked.specs.PiecesShim.{two_blocks, says, reads_last, reads_past, stays_mapped, reads_both, reads_first, reads_at_once, pins_both, chains_both, chains_twice, chains_none};
ghost use Rattle.cc_worked.specs.PiecesShim.{map_is_refused, reads_on, held_unread, ends_unread, page_is_refused};

/// A write asks the sizes, extends the stream, zeroes the gap behind the valid data length and writes, in this
/// order, and is done by no fewer calls.
pub fn write_makes_its_calls()
    ensures done { Leaves (ByteWrite 8192) unit one_valid grows }
    ensures not_short { Leaves (ByteWrite 8192) unit one_valid stops_short → ⊥ }
    ensures no_gap { Leaves (ByteWrite 8192) unit one_valid leaves_gap → ⊥ }
    ensures in_order { Leaves (ByteWrite 8192) unit one_valid zeroes_last → ⊥ }
    ensures asks_first { Leaves (ByteWrite 8192) unit one_valid asks_nothing → ⊥ }
{}

/// A write within the size is one call; one that ends past it keeps a larger allocation, and a gap is zeroed in
/// parts of 1048576 bytes.
pub fn write_makes_no_needless_calls()
    ensures within { calls_of_write 0 one_page_valid ≡ writes_at 0 ∷ [] }
    ensures at_valid { calls_of_write 4096 one_page_valid ≡ writes_at 4096 ∷ [] }
    ensures allocated { calls_of_write 8192 allocated ≡ call.SetSizes a 16384 8193 ∷ writes_at 8192 ∷ [] }
    ensures no_gap { zeroings a 4096 0 ≡ [] }
    ensures one_part { zeroings a 0 1048576 ≡ zeroes_part 0 1048576 ∷ [] }
    ensures two_parts { zeroings a 4096 1052673 ≡ zeroes_part 4096 1052672 ∷ zeroes_part 1052672 1052673 ∷ [] }
    ensures not_at_once { zeroings a 4096 1052673 ≡ zeroes_part 4096 1052673 ∷ [] → ⊥ }
    ensures not_deallocated { calls_of_write 8192 allocated ≡ extends ∷ writes_at 8192 ∷ [] → ⊥ }
{}

/// A write ends at its first call that is refused, with that refusal.
pub fn write_ends_at_a_refusal()
    ensures refused { Leaves (ByteWrite 8192) (answer.Refused (error.Held 1)) one_valid extension_is_refused }
    ensures not_asked { Leaves (ByteWrite 8192) (answer.Refused error.NotCached) [] state_is_refused }
    ensures no_more { Leaves (ByteWrite 8192) (answer.Refused (error.Held 1)) one_valid goes_on → ⊥ }
    ensures no_other { Leaves (ByteWrite 8192) (answer.Refused (error.Held 2)) one_valid extension_is_refused → ⊥ }
    ensures not_done { Leaves (ByteWrite 8192) unit one_valid extension_is_refused → ⊥ }
{}

/// A write of more bytes than the limit leaves nothing; one whose gap is longer than the limit has asked the
/// sizes, and a gap as long as the limit is not refused so.
pub fn write_keeps_to_its_limits()
    ensures too_long { (bytes : List ℕ) → 1048576 < length bytes
        → LeavesNothing (WriteOf bytes 0) (answer.Refused (error.TooLong 1048576)) one_valid }
    ensures not_written { (bytes : List ℕ) → 1048576 < length bytes
        → (new : List Entry) → WriteOf bytes 0 unit one_valid new → ⊥ }
    ensures gap_too_long { Leaves (ByteWrite 67112961) (answer.Refused (error.GapTooLong 67108864)) one_valid asked }
    ensures not_too_long { Leaves (ByteWrite 67112960) (answer.Refused (error.GapTooLong 67108864))
        one_valid asked → ⊥ }
{}

/// An update pins its range, appends its record, changes the bytes and stamps them with the record's LSN, in
/// this order, and lets the range go.
pub fn update_has_its_record()
    ensures done { Leaves (ByteUpdate 258) (answer.NewLsn 1) (logged 8192) (updates_with its_record 1) }
    ensures recorded { update_record_of_file a 64 (171 ∷ 205 ∷ []) ≡ record_of_two }
    ensures no_other_answer { Leaves (ByteUpdate 258) (answer.NewLsn 2) (logged 8192) (updates_with its_record 1) → ⊥ }
    ensures no_other_stamp { Leaves (ByteUpdate 258) (answer.NewLsn 1) (logged 8192) (updates_with its_record 2) → ⊥ }
    ensures no_other_record { Leaves (ByteUpdate 258) (answer.NewLsn 1)
        (logged 8192) (updates_with turned_record 1) → ⊥ }
    ensures logged { Leaves (ByteUpdate 258) (answer.NewLsn 1) (logged 8192) updates_unlogged → ⊥ }
    ensures record_first { Leaves (ByteUpdate 258) (answer.NewLsn 1) (logged 8192) stamps_first → ⊥ }
    ensures let_go { Leaves (ByteUpdate 258) (answer.NewLsn 1) (logged 8192) stays_pinned → ⊥ }
{}

/// An update that is refused lets its range go; without a log, behind the valid data length, and where the log
/// fails, nothing is changed; where memory is wanting after the record, that stands alone.
pub fn refused_update_changes_nothing()
    ensures no_log { Leaves (ByteUpdate 258) (answer.Refused (error.NoLog 255))
        two_pages (nothing_changes unlogged_state) }
    ensures behind_valid { Leaves (ByteUpdate 4097) (answer.Refused (error.BeyondValid 4096))
        (logged 4096) nothing_behind }
    ensures log_failed { Leaves (ByteUpdate 258) (answer.Refused (error.LogFault 0)) (logged 8192) log_fails }
    ensures no_memory { Leaves (ByteUpdate 258) (answer.Refused error.NoMemory) (logged 8192) record_alone }
    ensures pin_refused { Leaves (ByteUpdate 258) (answer.Refused (error.Busy 1)) (logged 8192) pin_is_refused }
    ensures there_is_a_log { Leaves (ByteUpdate 258) (answer.Refused (error.NoLog 255))
        (logged 8192) (nothing_changes (logged_state 8192)) → ⊥ }
    ensures not_behind_valid { Leaves (ByteUpdate 258) (answer.Refused (error.BeyondValid 8192))
        (logged 8192) (nothing_changes (logged_state 8192)) → ⊥ }
    ensures let_go { Leaves (ByteUpdate 258) (answer.Refused (error.LogFault 0)) (logged 8192) log_fails_pinned → ⊥ }
    ensures not_changed { Leaves (ByteUpdate 258) (answer.Refused (error.LogFault 0))
        (logged 8192) changes_all_the_same → ⊥ }
    ensures not_unstamped { Leaves (ByteUpdate 258) (answer.Refused error.NoMemory)
        (logged 8192) changes_unstamped → ⊥ }
{}

/// A read that holds what it reads cuts its range at the size, holds the part in each view block, reads it and
/// lets it go; by a descriptor it holds all at once, and what has no byte not at all.
pub fn held_read_goes_by_parts()
    ensures cut { Leaves (ReadBy Mapped 8191 2) (gives (90 ∷ [])) two_pages reads_last }
    ensures both { Leaves (ReadBy Mapped 262143 2) (gives (90 ∷ 90 ∷ [])) two_blocks reads_both }
    ensures pinned { Leaves (ReadBy Pinned 262143 2) (gives (90 ∷ 90 ∷ [])) two_blocks (pins_both false) }
    ensures chained { Leaves (ReadBy Descriptor 262143 2) (gives (90 ∷ 90 ∷ [])) two_blocks chains_both }
    ensures nothing { Leaves (ReadBy Descriptor 8192 1) (gives []) two_pages (says 8192) }
    ensures not_past_size { Leaves (ReadBy Mapped 8191 2) (gives (90 ∷ [])) two_pages reads_past → ⊥ }
    ensures let_go { Leaves (ReadBy Mapped 8191 2) (gives (90 ∷ [])) two_pages stays_mapped → ⊥ }
    ensures no_part_left_out { Leaves (ReadBy Mapped 262143 2) (gives (90 ∷ 90 ∷ [])) two_blocks reads_first → ⊥ }
    ensures not_at_once { Leaves (ReadBy Mapped 262143 2) (gives (90 ∷ 90 ∷ [])) two_blocks reads_at_once → ⊥ }
    ensures no_other_bytes { Leaves (ReadBy Mapped 262143 2) (gives (90 ∷ 91 ∷ [])) two_blocks reads_both → ⊥ }
    ensures shared { Leaves (ReadBy Pinned 262143 2) (gives (90 ∷ 90 ∷ [])) two_blocks (pins_both true) → ⊥ }
    ensures one_chain { Leaves (ReadBy Descriptor 262143 2) (gives (90 ∷ 90 ∷ [])) two_blocks chains_twice → ⊥ }
    ensures no_empty_chain { Leaves (ReadBy Descriptor 8192 1) (gives []) two_pages chains_none → ⊥ }
{}

/// Such a read ends at its first refusal, and what it held is let go; the noncached path alone wants whole pages.
pub fn held_read_ends_at_a_refusal()
    ensures refused { Leaves (ReadBy Mapped 262143 2) (answer.Refused (error.NoViews 0 16)) two_blocks map_is_refused }
    ensures no_memory { Leaves (ReadBy Mapped 8191 2) (answer.Refused error.NoMemory) two_pages ends_unread }
    ensures unaligned { LeavesNothing (ReadBy Noncached 1 4096) (answer.Refused error.Unaligned) two_pages }
    ensures noncached { Leaves (ReadBy Noncached 0 4096) (answer.Refused error.NotCached) [] page_is_refused }
    ensures no_more { Leaves (ReadBy Mapped 262143 2) (answer.Refused (error.NoViews 0 16)) two_blocks reads_on → ⊥ }
    ensures let_go { Leaves (ReadBy Mapped 8191 2) (answer.Refused error.NoMemory) two_pages held_unread → ⊥ }
    ensures any_place { LeavesNothing (ReadBy Mapped 1 4096) (answer.Refused error.Unaligned) two_pages → ⊥ }
{}
