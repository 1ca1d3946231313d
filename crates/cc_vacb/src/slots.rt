//! A slot of an index block: empty, a block one level below, or a view.

ghost use Rattle.std.specs.Prelude.{◌≡◌};

/// What a slot of an index block holds.
#[derive(Clone, Copy, PartialEq, Eq, Debug)]
pub enum Slot {
    Empty,
    /// The number of an index block one level below.
    Node(u32),
    View(u16),
}

impl Slot {
    ghost use Rattle.cc_vacb.specs.Slots.{child_of, view_of};

    /// The number of the index block that the slot holds, where it holds one.
    pub fn child(self) -> Option<u32>
        ensures { result ≡ child_of self }
    {
        match self {
            Slot::Node(node) => Some(node),
            _ => None,
        }
    }

    /// The view that the slot holds, where it holds one.
    pub fn view(self) -> Option<u16>
        ensures { result ≡ view_of self }
    {
        match self {
            Slot::View(view) => Some(view),
            _ => None,
        }
    }
}
