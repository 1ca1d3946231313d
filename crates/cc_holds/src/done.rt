//! What a done call does to the open holds of its stream.

ghost use Rattle.std.specs.Prelude.{◌≡◌, ℕ, ◌<◌, ◌+◌, ◌^◌, length, List, ◌∷◌, Option, None, false, OnOk, OnErr, IsOk};
ghost use Rattle.cc_entry.specs.declared.reply.Reply.{Reply};
ghost use Rattle.cc_model.specs.History.{Effect, Did};
ghost use Rattle.cc_model.specs.Holds.{holds_of, id_of};
ghost use Rattle.cc_holds.specs.Stands.{HoldsStand};
ghost use Rattle.cc_holds.specs.Makes.{row_made, zeroed_end};
ghost use Rattle.cc_holds.specs.Done.{MakesAbove, takes_hold_memory, written_end};

use crate::open_holds::OpenHolds;
use cc_entry::{Call, NoMemory, Span};

impl OpenHolds {
    /// Follows a call of the stream that a pass has done, given the id in its reply, which is greater than that of each
    /// open hold where the call makes one. What it zeroes or writes ends below 2^64. Only a new hold and a pinned
    /// write take memory. Answers `NoMemory`, and then nothing has changed.
    pub fn done(&mut self, pass: u32, call: &Call, id: u64) -> Result<(), NoMemory>
        requires zeroed { zeroed_end call.now < 2 ^ 64 }
        requires written { written_end call.now < 2 ^ 64 }
        ensures stands { OnOk result ((h : List Effect) (reply : Reply) →
            HoldsStand h self.old → id_of reply ≡ id → MakesAbove call.now id (holds_of h) →
            HoldsStand (Did pass call.now reply ∷ h) self.new) }
        ensures refused { OnErr result (self.new ≡ self.old) }
        ensures sure { takes_hold_memory call.now ≡ false → IsOk result }
    {
        match self.row_made(call, id) {
            Some(row) => self.make(pass, row),
            None => self.changed(call),
        }
    }

    // Follows a done call that makes no hold.
    fn changed(&mut self, call: &Call) -> Result<(), NoMemory>
        requires { written_end call.now < 2 ^ 64 }
        ensures stands { OnOk result ((h : List Effect) (pass : ℕ) (reply : Reply) →
            HoldsStand h self.old → row_made call.now (id_of reply) (holds_of h) ≡ None →
            HoldsStand (Did pass call.now reply ∷ h) self.new) }
        ensures refused { OnErr result (self.new ≡ self.old) }
        ensures sure { takes_hold_memory call.now ≡ false → IsOk result }
    {
        match call {
            Call::PinMapped { hold, exclusive } => {
                self.pin(*hold, *exclusive);
                Ok(())
            }
            Call::PinnedWrite { hold, at, bytes } => self.written(*hold, *at, bytes.len()),
            Call::SetDirty { hold, .. } => {
                self.stamp(*hold);
                Ok(())
            }
            Call::EndHold { hold } => {
                self.end(*hold);
                Ok(())
            }
            _ => Ok(()),
        }
    }

    // Follows a done `PinnedWrite` of so many bytes.
    fn written(&mut self, id: u64, at: u64, len: u64) -> Result<(), NoMemory>
        requires { at + len < 2 ^ 64 }
        ensures stands { OnOk result ((h : List Effect) (pass : ℕ) (bytes : List ℕ) (reply : Reply) →
            HoldsStand h self.old → length bytes ≡ len →
            HoldsStand (Did pass (Call.PinnedWrite id at bytes) reply ∷ h) self.new) }
        ensures refused { OnErr result (self.new ≡ self.old) }
    {
        match Span::new(at, at + len) {
            Some(span) => self.write(id, span),
            None => unreachable!(),
        }
    }
}
