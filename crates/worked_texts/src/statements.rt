//! Lines of the language and their fields, and what they say.
use model_text::{TextFault, read_command, read_later_line, read_line, read_name, read_number};

// Which call reads a line: that of any line of a model, that of a line after the header of a version, or that of a command.
#[derive(Clone, Copy)]
enum By {
    Line,
    Later(u32),
    Command,
}

use By::{Command, Later, Line};

// The fault of a line, if it has one.
fn fault_of(by: By, line: &[u8]) -> Option<TextFault> {
    match by {
        Line => read_line(line).err(),
        Later(version) => read_later_line(version, line).err(),
        Command => read_command(line).err(),
    }
}

// The number of its code, or 0.
fn code_of(by: By, line: &str) -> u8 {
    match fault_of(by, line.as_bytes()) {
        Some(fault) => fault.code().number(),
        None => 0,
    }
}

// A line, which call reads it, and the number of its first fault, or 0.
const LINES: &[(By, &str, u8)] = &[
    (Line, "evacplan 1", 0),
    (Line, "evacplan", 5),
    (Line, "evacplan 1 1", 5),
    (Line, "evacplan one", 6),
    (Line, "", 0),
    (Line, "  \t ", 0),
    (Line, "# period x", 0),
    (Line, "#", 0),
    (Line, "title", 5),
    (Line, "title \t ", 5),
    (Line, "title x", 0),
    (Line, "Period 5", 4),
    (Line, "periods 5", 4),
    (Line, "period", 5),
    (Line, "period 5 5", 5),
    (Line, "period 0", 7),
    (Line, "period 600", 0),
    (Line, "period 601", 7),
    (Line, "period 000000005", 0),
    (Line, "period 0000000005", 6),
    (Line, "period 5\r", 6),
    (Line, "horizon 0", 0),
    (Line, "horizon 1201", 7),
    (Line, "horizon -1", 6),
    (Line, "floor 0 Ground", 0),
    (Line, "floor 0", 5),
    (Line, "floor x", 5),
    (Line, "floor x Ground", 6),
    (Line, "floor 1000 Roof", 7),
    (Line, "node", 5),
    (Line, "node WP1.1 80 60", 0),
    (Line, "node WP1.1 80", 5),
    (Line, "node WP1.1 80 60 1", 5),
    (Line, "node WP01.1", 8),
    (Line, "node DS1.1", 0),
    (Line, "node DS1.1 80 60", 5),
    (Line, "node WP1.1 100001 60", 7),
    (Line, "node WP1.1 x 100001", 6),
    (Line, "arc WP1.1 LO1.1 1 10", 0),
    (Line, "arc WP1.1 LO1.1 0 10", 7),
    (Line, "arc WP1.1 LO1.1 601 x", 7),
    (Line, "arc WP1.1 LO1.1 600 10001", 7),
    (Line, "arc WP1 LO1.1 x 10", 8),
    (Line, "arc WP1 LO1.1 x", 5),
    (Line, "\tend ", 0),
    (Line, "end 1", 5),
    (Later(1), "", 0),
    (Later(1), " end", 0),
    (Later(2), "period 0", 7),
    (Later(1), "evacplan one", 4),
    (Later(2), "evacplan 2", 4),
    (Later(1), "window", 4),
    (Later(2), "window", 5),
    (Later(1), "entrant WP1.1 x 1", 4),
    (Later(2), "entrant WP1.1 x 1", 6),
    (Command, "", 0),
    (Command, "# quit", 0),
    (Command, "shut WP1.1 HA1.1", 0),
    (Command, "reopen WP1.1", 5),
    (Command, "shutexit DS1.0", 0),
    (Command, "openexit DS1.00", 8),
    (Command, "rate WP1.1 HA1.1 999999999", 0),
    (Command, "rate WP1.1 HA1.1 1000000000", 6),
    (Command, "room WP1.1 x", 6),
    (Command, "shift WP1 HA1 x", 8),
    (Command, "enter WP1.1 5", 0),
    (Command, "leave WP1.1 5 5", 5),
    (Command, "undo", 0),
    (Command, "undo 1", 5),
    (Command, "cut 7", 0),
    (Command, "cut", 5),
    (Command, "routes", 0),
    (Command, "clearing", 0),
    (Command, "bottlenecks", 0),
    (Command, "summary", 0),
    (Command, "work", 0),
    (Command, "quit", 0),
    (Command, "quit now", 5),
    (Command, "exit", 31),
    (Command, "Undo 1", 31),
];

#[test]
fn lines_have_their_first_fault(rt: HostRuntime) {
    for (by, line, code) in LINES {
        assert!(rt; code_of(*by, line) == *code, "at {line}");
    }
}

// A field, the number that it is, and whether it is a name.
const FIELDS: &[(&str, Option<u32>, bool)] = &[
    ("0", Some(0), false),
    ("007", Some(7), false),
    ("999999999", Some(999_999_999), false),
    ("0000000001", None, false),
    ("", None, false),
    ("1a", None, false),
    ("+1", None, false),
    ("WP1.0", None, true),
    ("HA9999.999", None, true),
    ("SW10000.1", None, false),
    ("LO1.1000", None, false),
    ("DS0.1", None, false),
    ("DS1.01", None, false),
    ("DS01.1", None, false),
    ("DS1.", None, false),
    ("DS.1", None, false),
    ("DS1", None, false),
    ("ds1.1", None, false),
    ("XX1.1", None, false),
    ("WP1.1.1", None, false),
    ("W", None, false),
];

#[test]
fn fields_are_numbers_or_names(rt: HostRuntime) {
    for (field, number, known) in FIELDS {
        let bytes = field.as_bytes();
        assert!(rt;
            read_number(bytes) == *number && read_name(bytes).is_some() == *known,
            "at {field}"
        );
    }
}
