//! What each fault says to whoever prints it.
use building_table::{BuildFault, EndFault, NameFault};
use evac_law::EditFault;
use model_text::TextFault;
use std::alloc::{AllocError, Global};

#[derive(Clone, Copy)]
enum Fault {
    Edit(EditFault),
    Text(TextFault),
    Build(BuildFault),
    End(EndFault),
    Name(NameFault),
}

use Fault::{Build, Edit, End, Name, Text};

// The text that a fault says.
fn said(alloc: Global, fault: Fault) -> Result<String, AllocError> {
    match fault {
        Edit(fault) => format!(in alloc; "{fault}"),
        Text(fault) => format!(in alloc; "{fault}"),
        Build(fault) => format!(in alloc; "{fault}"),
        End(fault) => format!(in alloc; "{fault}"),
        Name(fault) => format!(in alloc; "{fault}"),
    }
}

const FAULTS: &[(Fault, &str)] = &[
    (Edit(EditFault::OutOfRange), "a number is out of range"),
    (
        Edit(EditFault::OverFull),
        "more people would start in the node than it has room for",
    ),
    (Edit(EditFault::SameNode), "both nodes are the same"),
    (
        Edit(EditFault::TooMany),
        "the building would have too many people",
    ),
    (Edit(EditFault::AlreadyShut), "it is shut already"),
    (Edit(EditFault::AlreadyOpen), "it is open already"),
    (Edit(EditFault::NotExit), "the node is not an exit"),
    (Edit(EditFault::ExitNamed), "the node is an exit"),
    (Edit(EditFault::TooFew), "fewer people start in the node"),
    (
        Edit(EditFault::BadWindow),
        "the window doesn't begin before it ends",
    ),
    (
        Edit(EditFault::WindowOverlap),
        "the arc has a window at one of these moments",
    ),
    (
        Edit(EditFault::TooManyWindows),
        "the arc has as many windows as it may have",
    ),
    (Edit(EditFault::NoWindow), "the arc has no such window"),
    (Text(TextFault::UnknownWord), "the first word is unknown"),
    (
        Text(TextFault::FieldCount),
        "the number of fields is wrong, or a text is missing",
    ),
    (Text(TextFault::BadNumber), "a field is not a number"),
    (Text(TextFault::OutOfRange), "a number is out of range"),
    (Text(TextFault::BadName), "a field is not a node's name"),
    (Text(TextFault::UnknownCommand), "the command is unknown"),
    (Build(BuildFault::RepeatedSetting), "it was given before"),
    (Build(BuildFault::UnknownFloor), "the floor is unknown"),
    (Build(BuildFault::RepeatedNode), "the node was named before"),
    (
        Build(BuildFault::OverFull),
        "more people start in the node than it has room for",
    ),
    (Build(BuildFault::UnknownNode), "a node is unknown"),
    (
        Build(BuildFault::SelfArc),
        "both ends of the arc are the same",
    ),
    (Build(BuildFault::FromExit), "the arc leaves an exit"),
    (Build(BuildFault::RepeatedArc), "the arc was given before"),
    (Build(BuildFault::TooMany), "there are too many"),
    (Build(BuildFault::NoArc), "there is no such arc"),
    (
        Build(BuildFault::BadWindow),
        "the window doesn't begin before it ends",
    ),
    (
        Build(BuildFault::WindowOverlap),
        "the arc has a window at one of these moments",
    ),
    (
        Build(BuildFault::TooManyWindows),
        "the arc has as many windows as it may have",
    ),
    (Build(BuildFault::ExitNamed), "the node is an exit"),
    (
        Build(BuildFault::RepeatedEntrant),
        "people come into the node at this moment already",
    ),
    (Build(BuildFault::Memory), "there is no memory"),
    (
        End(EndFault::MissingSetting),
        "the period or the horizon is missing",
    ),
    (End(EndFault::NoExit), "there is no exit"),
    (
        End(EndFault::TooLarge),
        "the building is too large for its horizon",
    ),
    (
        End(EndFault::EntrantLate),
        "people come in after the horizon",
    ),
    (End(EndFault::Memory), "there is no memory"),
    (Name(NameFault::UnknownNode), "a node is unknown"),
    (Name(NameFault::NoArc), "there is no such arc"),
];

#[test]
fn faults_say_what_is_wrong(rt: HostRuntime) -> Result<(), AllocError> {
    for (fault, text) in FAULTS {
        assert!(rt; said(rt.alloc(), *fault)?.as_str() == *text, "{text}");
    }
    Ok(())
}
