//! A stream that is restarted.

ghost use Rattle.std.specs.Prelude.{◌≤◌, ◌<◌, ◌^◌};

/// A stream that is restarted: its number in the log, the place of its disk among those that are handed in, and the size
/// and the valid data length that its record says, or that it is given where it has none.
#[derive(Clone, Copy)]
pub struct Redo {
    pub stream: u8,
    pub disk: u8,
    pub size: u64,
    pub valid: u64,
    ghost within: { valid ≤ size },
    ghost in_range: { size < 2 ^ 63 },
}
