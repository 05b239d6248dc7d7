//! How a run ends, and a talk with it.
ghost use Rattle.std.specs.Prelude.{◌≡◌};
ghost use Rattle.talk.specs.Held.{status_after};
ghost use Rattle.talk.specs.Statuses.{status_number};

use line_io::WriteFault;

/// How a run ends. A talk ends so too, but for `WordsRefused` and `NoWords`.
#[derive(Clone, Copy)]
pub enum Status {
    /// The answer was written, the input ended, or a line quit.
    Done,
    /// Refused by a code, or the checker's no.
    Refused,
    /// The words are refused.
    WordsRefused,
    /// The source failed.
    SourceFailed,
    /// The sink failed.
    SinkFailed,
    /// There was no memory.
    NoMemory,
    /// The system gave no words.
    NoWords,
}

impl Status {
    /// The number with which the program ends.
    pub fn number(self) -> u8
        ensures { result ≡ status_number self }
    {
        match self {
            Status::Done => 0,
            Status::Refused => 1,
            Status::WordsRefused => 2,
            Status::SourceFailed => 3,
            Status::SinkFailed => 4,
            Status::NoMemory => 5,
            Status::NoWords => 6,
        }
    }
}

/// The status after a text that was sent.
pub fn status_after(sent: Result<(), WriteFault>, status: Status) -> Status
    ensures { status_number result ≡ status_after sent (status_number status) }
{
    match sent {
        Ok(()) => status,
        Err(_) => Status::SinkFailed,
    }
}
