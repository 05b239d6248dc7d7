//! Why a line is refused.
ghost use Rattle.std.specs.Prelude.{◌≡◌};
ghost use Rattle.model_text.specs.Codes.{text_fault_code};

use evac_law::Code;
use thiserror::Error;

/// Why a line by itself is refused.
#[derive(Clone, Copy, Debug, Error)]
pub enum TextFault {
    #[error("the first word is unknown")]
    UnknownWord,
    #[error("the number of fields is wrong, or a text is missing")]
    FieldCount,
    #[error("a field is not a number")]
    BadNumber,
    #[error("a number is out of range")]
    OutOfRange,
    #[error("a field is not a node's name")]
    BadName,
    #[error("the command is unknown")]
    UnknownCommand,
}

impl TextFault {
    /// The code by which a refusal names the fault.
    pub fn code(self) -> Code
        ensures { result ≡ text_fault_code self }
    {
        match self {
            TextFault::UnknownWord => Code::UnknownWord,
            TextFault::FieldCount => Code::FieldCount,
            TextFault::BadNumber => Code::BadNumber,
            TextFault::OutOfRange => Code::OutOfRange,
            TextFault::BadName => Code::BadName,
            TextFault::UnknownCommand => Code::UnknownCommand,
        }
    }
}
