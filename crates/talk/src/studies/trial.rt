//! What is asked of an arc, and a rate that is tried for it.

/// An arc whose least rate is asked for, and the moment by which everybody is to be out. It may be past the horizon.
#[derive(Clone, Copy)]
pub struct Question {
    pub arc: u32,
    pub by: u32,
}

/// A rate of an arc, and the moment by which everybody is to be out.
#[derive(Clone, Copy)]
pub struct Trial {
    pub arc: u32,
    pub rate: u32,
    pub by: u16,
}
