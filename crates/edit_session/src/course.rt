//! Where an edit leads.

/// An edit leads onward, to a plan that is still to be found, or back to the plan that the net saved last, whose flow is known.
#[derive(Clone, Copy)]
pub enum Course {
    Onward,
    Back,
}
