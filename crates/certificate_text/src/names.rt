//! The names of nodes and of the ends of arcs, each spelt once.
ghost use Rattle.std.specs.Prelude.{◌≡◌, ◌≤◌, ◌<◌, ◌++◌, ◌∷◌, length};
ghost use Rattle.evac_law.specs.Building.{IsValid};
ghost use Rattle.evac_law.specs.Names.{IsName, name_text};
ghost use Rattle.certificate_text.specs.NameTexts.{ends_texts};

use arrayvec::ArrayVec;
use evac_law::limits::ARC_LIMIT;
use evac_law::{Model, NodeName};
use line_io::TextLine;

/// The text of a node's name. Contracts see it as its bytes.
#[derive(Drop)]
pub(crate) struct NameText {
    bytes: [u8; NodeName::TEXT_LIMIT],
    len: usize,
}

impl std::marker::Model for NameText {
    ghost use Rattle.std.specs.Prelude.{ℕ, ◌≤◌, List, take};

    ghost Value = { List ℕ };

    ghost view = { λ t. take t.len t.bytes };

    ghost invariant = { λ t. t.len ≤ 10 };
}

impl NameText {
    /// The text of a name.
    pub(crate) fn new(name: NodeName) -> NameText
        requires { IsName name }
        ensures { result ≡ name_text name }
    {
        let mut bytes = [0; NodeName::TEXT_LIMIT];
        let len = name.print(&mut bytes);
        NameText { bytes, len }
    }

    pub(crate) fn bytes(&self) -> &[u8]
        ensures value { result.now ≡ self.now }
        ensures few { length result.now ≤ 10 }
    {
        &self.bytes[..self.len]
    }
}

// The bytes of the longest two names with a space between them.
const ENDS_LIMIT: usize = 2 * NodeName::TEXT_LIMIT + 1;

/// The names of the ends of an arc, with a space between them. Contracts see it as its bytes.
#[derive(Drop)]
pub(crate) struct EndsText {
    bytes: [u8; ENDS_LIMIT],
    len: usize,
}

impl std::marker::Model for EndsText {
    ghost use Rattle.std.specs.Prelude.{ℕ, ◌≤◌, List, take};

    ghost Value = { List ℕ };

    ghost view = { λ t. take t.len t.bytes };

    ghost invariant = { λ t. t.len ≤ 21 };
}

impl Default for EndsText {
    // No text.
    fn default() -> EndsText {
        EndsText {
            bytes: [0; ENDS_LIMIT],
            len: 0,
        }
    }
}

impl EndsText {
    // Two names.
    fn new(from: NodeName, to: NodeName) -> EndsText
        requires from { IsName from }
        requires to { IsName to }
        ensures { result ≡ name_text from ++ (32 ∷ name_text to) }
    {
        let mut line = TextLine::new(NameText::new(from).bytes());
        line.field(NameText::new(to).bytes());
        let len = line.bytes().len();
        let mut bytes = [0; ENDS_LIMIT];
        bytes[..len].copy_from_slice(line.bytes());
        EndsText { bytes, len }
    }

    pub(crate) fn bytes(&self) -> &[u8]
        ensures value { result.now ≡ self.now }
        ensures few { length result.now ≤ 21 }
    {
        &self.bytes[..self.len]
    }
}

/// The names of the ends of each arc of a model.
#[tactic(auto, unfolding(evac_law::specs::Limits::arc_limit))]
pub(crate) fn ends_texts(model: &Model) -> ArrayVec<EndsText, ARC_LIMIT>
    requires { IsValid model.now }
    ensures { result.items ≡ ends_texts model.now }
{
    let mut texts = ArrayVec::new();
    for arc in 0..model.arc_count() {
        let row = model.arc(arc);
        let from = model.node(row.from).name;
        let to = model.node(row.to).name;
        texts.push(EndsText::new(from, to));
    }
    texts
}
