//! The names of nodes.
ghost use Rattle.std.specs.Prelude.{◌≡◌, ◌≤◌, ◌+◌, ◌++◌, drop, length, take};
ghost use Rattle.evac_law.specs.Names.{IsName, is_exit, kind_text, name_text};

use itoa::Buffer;

/// The kind of a node: a work place, a hall, a stairwell, a lobby or an exit.
#[derive(Clone, Copy, PartialEq, Eq, Hash)]
pub enum Kind {
    Work,
    Hall,
    Stair,
    Lobby,
    Exit,
}

impl Kind {
    /// Whether people are out once they are there.
    pub fn is_exit(self) -> bool
        ensures { result ≡ is_exit self }
    {
        matches!(self, Kind::Exit)
    }

    // The two letters that a name begins with.
    fn letters(self) -> [u8; 2]
        ensures { result ≡ kind_text self }
    {
        match self {
            Kind::Work => *b"WP",
            Kind::Hall => *b"HA",
            Kind::Stair => *b"SW",
            Kind::Lobby => *b"LO",
            Kind::Exit => *b"DS",
        }
    }
}

/// A node's name: its kind, a number and its floor, as in `WP1.2`.
#[derive(Clone, Copy, PartialEq, Eq, Hash)]
pub struct NodeName {
    pub kind: Kind,
    pub number: u16,
    pub floor: u16,
}

// Writes bytes at a place, and answers the place after them.
fn put(into: &mut [u8], at: usize, bytes: &[u8]) -> usize
    requires { at + length bytes.now ≤ length into.old }
    ensures end { result ≡ at + length bytes.now }
    ensures written { into.new ≡ take at into.old ++ bytes.now ++ drop result into.old }
{
    let end = at + bytes.len();
    into[at..end].copy_from_slice(bytes);
    end
}

impl NodeName {
    /// The most bytes of a name's text.
    pub const TEXT_LIMIT: usize = 10;

    /// Writes the name to the front of `into`, as in `WP12.3`, and answers its length.
    pub fn print(&self, into: &mut [u8]) -> usize
        requires name { IsName self.now }
        requires room { 10 ≤ length into.old }
        ensures length { result ≡ length (name_text self.now) }
        ensures short { result ≤ 10 }
        ensures text { take result into.new ≡ name_text self.now }
        ensures behind { drop result into.new ≡ drop result into.old }
    {
        let mut digits = Buffer::new();
        let at = put(into, 0, &self.kind.letters());
        let at = put(into, at, digits.format(self.number).as_bytes());
        let at = put(into, at, b".");
        put(into, at, digits.format(self.floor).as_bytes())
    }
}
