//! Why a part, a model or a name is refused.
ghost use Rattle.std.specs.Prelude.{◌≡◌};
ghost use Rattle.building_table.specs.Built.{build_code, end_code, name_code};

use evac_law::Code;
use thiserror::Error;

/// Why a part is refused among those before it.
#[derive(Clone, Copy, Debug, Error)]
pub enum BuildFault {
    #[error("it was given before")]
    RepeatedSetting,
    #[error("the floor is unknown")]
    UnknownFloor,
    #[error("the node was named before")]
    RepeatedNode,
    #[error("more people start in the node than it has room for")]
    OverFull,
    #[error("a node is unknown")]
    UnknownNode,
    #[error("both ends of the arc are the same")]
    SelfArc,
    #[error("the arc leaves an exit")]
    FromExit,
    #[error("the arc was given before")]
    RepeatedArc,
    #[error("there are too many")]
    TooMany,
    #[error("there is no such arc")]
    NoArc,
    #[error("the window doesn't begin before it ends")]
    BadWindow,
    #[error("the arc has a window at one of these moments")]
    WindowOverlap,
    #[error("the arc has as many windows as it may have")]
    TooManyWindows,
    #[error("the node is an exit")]
    ExitNamed,
    #[error("people come into the node at this moment already")]
    RepeatedEntrant,
    #[error("there is no memory")]
    Memory,
}

/// Why a model can't end.
#[derive(Clone, Copy, Debug, Error)]
pub enum EndFault {
    #[error("the period or the horizon is missing")]
    MissingSetting,
    #[error("there is no exit")]
    NoExit,
    #[error("the building is too large for its horizon")]
    TooLarge,
    #[error("people come in after the horizon")]
    EntrantLate,
    #[error("there is no memory")]
    Memory,
}

/// Why lines give no building.
#[derive(Clone, Copy, Debug)]
pub enum ModelFault {
    /// The first fault of the lines, by its code and its line.
    Named { code: Code, line: u32 },
    /// The source failed.
    ReadFault,
    /// There is no memory.
    Memory,
}

/// Why a command gives no edit.
#[derive(Clone, Copy, PartialEq, Eq, Debug, Error)]
pub enum NameFault {
    #[error("a node is unknown")]
    UnknownNode,
    #[error("there is no such arc")]
    NoArc,
}

impl BuildFault {
    /// The code by which a refusal names the fault; want of memory has none.
    pub fn code(self) -> Option<Code>
        ensures { result ≡ build_code self }
    {
        match self {
            BuildFault::RepeatedSetting => Some(Code::RepeatedSetting),
            BuildFault::UnknownFloor => Some(Code::UnknownFloor),
            BuildFault::RepeatedNode => Some(Code::RepeatedNode),
            BuildFault::OverFull => Some(Code::OverFull),
            BuildFault::UnknownNode => Some(Code::UnknownNode),
            BuildFault::SelfArc => Some(Code::SameNode),
            BuildFault::FromExit => Some(Code::FromExit),
            BuildFault::RepeatedArc => Some(Code::RepeatedArc),
            BuildFault::TooMany => Some(Code::TooMany),
            BuildFault::NoArc => Some(Code::NoArc),
            BuildFault::BadWindow => Some(Code::BadWindow),
            BuildFault::WindowOverlap => Some(Code::WindowOverlap),
            BuildFault::TooManyWindows => Some(Code::TooManyWindows),
            BuildFault::ExitNamed => Some(Code::ExitNamed),
            BuildFault::RepeatedEntrant => Some(Code::RepeatedEntrant),
            BuildFault::Memory => None,
        }
    }
}

impl EndFault {
    /// The code by which a refusal names the fault; want of memory has none.
    pub fn code(self) -> Option<Code>
        ensures { result ≡ end_code self }
    {
        match self {
            EndFault::MissingSetting => Some(Code::MissingSetting),
            EndFault::NoExit => Some(Code::NoExit),
            EndFault::TooLarge => Some(Code::TooLarge),
            EndFault::EntrantLate => Some(Code::EntrantLate),
            EndFault::Memory => None,
        }
    }
}

impl NameFault {
    /// The code by which a refusal names the fault.
    pub fn code(self) -> Code
        ensures { result ≡ name_code self }
    {
        match self {
            NameFault::UnknownNode => Code::UnknownNode,
            NameFault::NoArc => Code::NoArc,
        }
    }
}
