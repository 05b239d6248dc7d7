//! The codes by which refusals, and the checker's no, name what is wrong.
ghost use Rattle.std.specs.Prelude.{◌≡◌};
ghost use Rattle.evac_law.specs.Codes.{code_number};

/// What a refusal, or the checker's no, names by its number.
#[derive(Clone, Copy, PartialEq, Eq, Debug)]
pub enum Code {
    /// The first line that isn't blank is no header.
    FirstLine = 1,
    /// The line is too long.
    LineTooLong = 2,
    /// The input up to the end of the line is too long.
    InputTooLong = 3,
    /// The first word of the line is unknown.
    UnknownWord = 4,
    /// The number of fields is wrong, or a text is missing.
    FieldCount = 5,
    /// A field is no number.
    BadNumber = 6,
    /// A number is outside its range.
    OutOfRange = 7,
    /// A field is no name.
    BadName = 8,
    /// The title, the period, the horizon or the floor was given before.
    RepeatedSetting = 9,
    /// The floor of the node wasn't given.
    UnknownFloor = 10,
    /// A node of this name was given before.
    RepeatedNode = 11,
    /// More people would start in the node than it holds.
    OverFull = 12,
    /// A node isn't known.
    UnknownNode = 13,
    /// Both nodes are the same.
    SameNode = 14,
    /// The arc leaves an exit.
    FromExit = 15,
    /// There is an arc from this node to that one already.
    RepeatedArc = 16,
    /// There would be too many floors, nodes, arcs or people.
    TooMany = 17,
    /// The period or the horizon is missing.
    MissingSetting = 18,
    /// There is no exit.
    NoExit = 19,
    /// There are too many cells.
    TooLarge = 20,
    /// The input ends before the model does.
    MissingEnd = 21,
    /// Not everybody can be out by the horizon.
    NotCleared = 22,
    /// There is something after the end.
    TextAfterEnd = 23,
    /// The window doesn't begin before it ends.
    BadWindow = 24,
    /// A moment of the window lies in another window of the arc.
    WindowOverlap = 25,
    /// The arc has as many windows as may be.
    TooManyWindows = 26,
    /// The arc has no such window.
    NoWindow = 27,
    /// An entrant comes in after the horizon.
    EntrantLate = 28,
    /// There is an entrant of this node and moment already.
    RepeatedEntrant = 29,
    /// The command is unknown.
    UnknownCommand = 31,
    /// There is no arc between the two nodes.
    NoArc = 32,
    /// There is no such period.
    NoPeriod = 33,
    /// It is shut already.
    AlreadyShut = 34,
    /// It isn't shut.
    AlreadyOpen = 35,
    /// The node is no exit.
    NotExit = 36,
    /// The node is an exit.
    ExitNamed = 37,
    /// Fewer people start there.
    TooFew = 38,
    /// There is nothing to undo.
    NothingToUndo = 39,
    /// The words after the program's name are unknown.
    UnknownWords = 40,
    /// The plan can't be carried out up to this moment.
    BadMoment = 41,
    /// A plan was carried out, so people can't be moved by an edit.
    Committed = 42,
    /// The line is none that a block has there.
    BadBlock = 51,
    /// The block states other people than the model has.
    PeopleWrong = 52,
    /// More people enter an arc at a moment than its rate.
    RateBroken = 53,
    /// A node holds more people than its capacity, or fewer than none.
    HeldBroken = 54,
    /// Not everybody is out by the stated moment, or all were before.
    NotAllOut = 55,
    /// The number of people out by a period isn't that of the moves.
    OutWrong = 56,
    /// The cut of a period isn't worth the people who are out by then.
    CutWrong = 57,
}

impl Code {
    /// The number that is printed.
    pub fn number(self) -> u8
        ensures { result ≡ code_number self }
    {
        self as u8
    }
}
