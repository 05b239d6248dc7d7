//! The entries of a block.
ghost use Rattle.std.specs.Prelude.{◌≡◌};
ghost use Rattle.certificate_text.specs.Entries.{is_end};

use evac_law::NodeName;

/// What a line of a block says: nothing, the number of the block, its people, the moment at which the last one is out, the people out by a
/// period, the label of a node from a moment on, the people who enter the arc between two nodes at a moment, or the end.
#[derive(Clone, Copy)]
pub enum Entry {
    Blank,
    Index {
        index: u32,
    },
    People {
        people: u32,
    },
    Cleared {
        moment: u32,
    },
    Out {
        period: u32,
        people: u32,
    },
    Label {
        node: NodeName,
        moment: u32,
        label: u32,
    },
    Move {
        moment: u32,
        from: NodeName,
        to: NodeName,
        people: u32,
    },
    End,
}

impl Entry {
    /// Whether the line ends the block.
    pub fn is_end(self) -> bool
        ensures { result ≡ is_end self }
    {
        matches!(self, Entry::End)
    }
}
