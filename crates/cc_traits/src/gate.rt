//! The gate that callers pass before and after each of their calls.

/// What callers pass before and after each of their calls. Threads share it, so it can hold back one
/// of them until another is through; a program's gate returns at once.
pub trait Gate: Sync {
    /// Passed by `caller` before its call with the number `call`.
    fn before(&self, caller: u32, call: u32);

    /// Passed by `caller` after its call with the number `call`.
    fn after(&self, caller: u32, call: u32);
}
