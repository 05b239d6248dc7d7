//! Why a plan isn't carried out, and why an edit is refused.
use edit_session::EditRefusal;

/// Why a plan isn't carried out up to a moment.
#[derive(Clone, Copy)]
pub enum AdvanceFault {
    BadMoment,
    Memory,
}

/// Why an edit is refused.
#[derive(Clone, Copy)]
pub enum ReplanRefusal {
    Committed,
    Edit(EditRefusal),
}
