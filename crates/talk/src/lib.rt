//! A talk over lines: it is opened, and each line after it is answered, until the input ends, a line quits, or a line has a fault.
//!
//! A `Speaker` says how a talk on a building begins and what a line gets. `hold_talk` brings each reply to the sink before it reads on, and refuses
//! a building that can't be cleared in place of a talk. `specs/Talks` says how a talk goes over lines, and `specs/Held` what a whole talk comes
//! to. Three speak: a session, a study and a replan.
#![tactic(auto)]

mod channel;
mod fault;
mod hold;
mod replans;
mod send;
mod sessions;
mod speaker;
mod status;
mod studies;
mod talker;

pub use channel::Channel;
pub use hold::hold_talk;
pub use replans::ReplanTalk;
pub use send::{send_refusal, send_short};
pub use sessions::{SessionTalk, edits_apart, sessions_agree, sessions_part};
pub use speaker::Speaker;
pub use status::{Status, status_after};
pub use studies::StudyDesk;
