//! How far a block was read.
ghost use Rattle.std.specs.Prelude.{◌≡◌};
ghost use Rattle.block_reader.specs.Drafts.{is_cleared, is_index, is_lists, is_people};

/// The line that comes next: one of the first three, or one of the lists.
#[derive(Clone, Copy)]
pub(crate) enum Stage {
    Index,
    People,
    Cleared,
    Lists,
}

impl Stage {
    pub(crate) fn is_index(self) -> bool
        ensures { result ≡ is_index self }
    {
        matches!(self, Stage::Index)
    }

    pub(crate) fn is_people(self) -> bool
        ensures { result ≡ is_people self }
    {
        matches!(self, Stage::People)
    }

    pub(crate) fn is_cleared(self) -> bool
        ensures { result ≡ is_cleared self }
    {
        matches!(self, Stage::Cleared)
    }

    pub(crate) fn is_lists(self) -> bool
        ensures { result ≡ is_lists self }
    {
        matches!(self, Stage::Lists)
    }
}
