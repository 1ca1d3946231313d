//! What a caller was told that a call found, as the value that it is.

ghost use Rattle.std.specs.Prelude.{◌≡◌, ℕ, Bool, Option};
ghost use Rattle.cc_entry.specs.declared.place.FileState.{FileState};
ghost use Rattle.cc_entry.specs.declared.query.Value.TheVariants as value;
ghost use Rattle.cc_writes.specs.declared.tell.Returned.TheVariants as returned;

use cc_entry::{FileState, Lsn, Value};
use cc_writes::Returned;

/// The flag that was told.
pub(crate) fn flag(told: Returned) -> bool
    requires { (flag : Bool) × (told ≡ returned.Value (value.Flag flag)) }
    ensures { told ≡ returned.Value (value.Flag result) }
{
    match told {
        Returned::Value(found) => match found {
            Value::Flag(flag) => flag,
            _ => unreachable!(),
        },
        _ => unreachable!(),
    }
}

/// The LSNs that were told.
pub(crate) fn lsns(told: Returned) -> Option<(Lsn, Lsn)>
    requires { (lsns : Option (ℕ × ℕ)) × (told ≡ returned.Value (value.Lsns lsns)) }
    ensures { told ≡ returned.Value (value.Lsns result) }
{
    match told {
        Returned::Value(found) => match found {
            Value::Lsns(lsns) => lsns,
            _ => unreachable!(),
        },
        _ => unreachable!(),
    }
}

/// The state that was told.
pub(crate) fn state(told: Returned) -> FileState
    requires { (state : FileState) × (told ≡ returned.Value (value.State state)) }
    ensures { told ≡ returned.Value (value.State result) }
{
    match told {
        Returned::Value(found) => match found {
            Value::State(state) => state,
            _ => unreachable!(),
        },
        _ => unreachable!(),
    }
}
