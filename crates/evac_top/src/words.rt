//! The modes of the program, and the words that ask for them.
ghost use Rattle.std.specs.Prelude.{◌≡◌, ◌≤◌, IfSome, map, string_bytes};
ghost use Rattle.model_text.specs.NameFields.{plain_within};
ghost use Rattle.evac_top.specs.Words.{IsBuildable, cards_alone, mode_alone, flags_of, mode_of, one_flag, storeys_of, two_flags};

use drill_building::STOREY_LIMIT;
use model_text::read_number;

/// The reports that are put after a plan.
#[derive(Clone, Copy)]
pub struct Flags {
    /// Who goes which way.
    pub routes: bool,
    /// One card for each person.
    pub cards: bool,
    /// When each part is empty, what holds people up, and a summary.
    pub reports: bool,
}

/// What the program does.
#[derive(Clone, Copy)]
pub enum Mode {
    /// Plans the building of a model, with what is asked for after the plan.
    Solve(Flags),
    /// Checks an answer block for the model before it.
    Check,
    /// Keeps the plan of a model while it is edited line by line.
    Session,
    /// Says of a model, line by line, what it comes to without an exit or at another rate.
    Study,
    /// Keeps the plan of a model while it is edited and carried out line by line.
    Replan,
    /// Writes a model as a text of version 2.
    Upgrade,
    /// Plans the building of a drill with so many storeys.
    Drill(u32),
}

// One word after `solve`.
fn one_flag(word: &str) -> Option<Flags>
    ensures { result ≡ one_flag word.now }
{
    if word == "--routes" {
        Some(Flags {
            routes: true,
            cards: false,
            reports: false,
        })
    } else if word == "--reports" {
        Some(Flags {
            routes: false,
            cards: false,
            reports: true,
        })
    } else {
        None
    }
}

// Two words after `solve`.
fn two_flags(first: &str, second: &str) -> Option<Flags>
    ensures { result ≡ two_flags first.now second.now }
{
    if (first == "--routes" && second == "--reports")
        || (first == "--reports" && second == "--routes")
    {
        Some(Flags {
            routes: true,
            cards: false,
            reports: true,
        })
    } else {
        None
    }
}

// What the words after `solve` ask for.
fn flags_of(words: &[String]) -> Option<Flags>
    ensures { result ≡ flags_of (map string_bytes words.now) }
{
    match words {
        [] => Some(Flags {
            routes: false,
            cards: false,
            reports: false,
        }),
        [word] => one_flag(word.as_str()),
        [first, second] => two_flags(first.as_str(), second.as_str()),
        _ => None,
    }
}

// A number of storeys without leading zeros.
fn number_of(word: &str) -> Option<u32>
    ensures number { result ≡ plain_within 1 STOREY_LIMIT word.now }
    ensures few { IfSome result (λ n. n ≤ STOREY_LIMIT) }
{
    let number = match word.as_bytes() {
        [b'0', _, ..] => return None,
        digits => read_number(digits)?,
    };
    if number < 1 || number > u32::from(STOREY_LIMIT) {
        None
    } else {
        Some(number)
    }
}

// The number of storeys that the words after `drill` ask for.
fn storeys_of(words: &[String]) -> Option<u32>
    ensures number { result ≡ storeys_of (map string_bytes words.now) }
    ensures few { IfSome result (λ n. n ≤ STOREY_LIMIT) }
{
    match words {
        [word, number] if word.as_str() == "--number" => number_of(number.as_str()),
        _ => None,
    }
}

// A mode whose word has none after it.
fn mode_alone(mode: Mode, words: &[String]) -> Option<Mode>
    ensures { result ≡ mode_alone mode (map string_bytes words.now) }
{
    if words.is_empty() { Some(mode) } else { None }
}

// What is put after a plan where cards are asked for.
fn cards_alone() -> Flags
    ensures { result ≡ cards_alone }
{
    Flags {
        routes: false,
        cards: true,
        reports: false,
    }
}

/// The mode that words ask for.
pub(crate) fn mode_of(words: &[String]) -> Option<Mode>
    ensures mode { result ≡ mode_of (map string_bytes words.now) }
    ensures few { IfSome result IsBuildable }
{
    let [word, more @ ..] = words else {
        return None;
    };
    match word.as_str() {
        "solve" => flags_of(more).map(Mode::Solve),
        "cards" => mode_alone(Mode::Solve(cards_alone()), more),
        "check" => mode_alone(Mode::Check, more),
        "session" => mode_alone(Mode::Session, more),
        "study" => mode_alone(Mode::Study, more),
        "replan" => mode_alone(Mode::Replan, more),
        "upgrade" => mode_alone(Mode::Upgrade, more),
        "drill" => storeys_of(more).map(Mode::Drill),
        _ => None,
    }
}
