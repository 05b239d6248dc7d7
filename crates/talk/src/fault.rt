//! Why a line isn't answered.
ghost use Rattle.std.specs.Prelude.{◌≡◌};
ghost use Rattle.talk.specs.declared.fault.AnswerFault.TheVariants.{Write};

use line_io::WriteFault;

/// Why a line isn't answered.
#[derive(Clone, Copy)]
pub enum AnswerFault {
    /// The sink failed.
    Write(WriteFault),
    /// There was no memory.
    Memory,
}

impl From<WriteFault> for AnswerFault {
    ghost from_gives = { λ fault answered. answered ≡ Write fault };

    fn from(fault: WriteFault) -> AnswerFault {
        AnswerFault::Write(fault)
    }
}
