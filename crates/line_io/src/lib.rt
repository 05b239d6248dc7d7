//! Lines read from a source of bytes, and text written to a sink.
//!
//! - `Source` and `Sink` are where bytes come from and go to. They say which bytes, where they tell them, and count their faults: a call
//!   fails only where the count rose. Some of both stand here: in memory, with calls that fail as told; clean ones; and over std's readers
//!   and writers.
//! - `Lines` finds the lines of a source. Which bytes are a line is said in `specs/Line.antt`, without a buffer. No byte is lost, a fault of
//!   a line stays, and a read fault leaves all as it was. Each time the source is offered enough room, and none after it gave no byte.
//! - `listen` lets a `Listener` hear line by line, until it has heard all or fails, or no further line is found. Any grammar read line by
//!   line is a listener with a relation between its states.
//! - `Out` puts text into a buffer on its way to a sink. What the sink holds and what is pending grow by exactly the text that was put. A
//!   flush offers the sink all that is pending each time.
//! - `TextLine` makes one line of fields, which is then put with its end.
//! - `Writer` is such a buffer with its sink. It remembers that the sink failed, and puts nothing from then on. So whoever puts many lines
//!   asks once, at the end.
#![tactic(auto)]

mod adapters;
mod buffer;
mod clean;
mod counted;
mod hearing;
mod limits;
mod lines;
mod memory;
mod out;
mod outside;
mod text_line;
mod writer;

pub use adapters::{StdSink, StdSource, bytes_are_counted};
pub use clean::{CleanSink, CleanSource};
pub use hearing::{Ending, Heard, Listener, Refusal, listen};
pub use limits::{BUFFER_SIZE, INPUT_LIMIT, LEAST_OFFER, LINE_LIMIT, PUT_LIMIT, TEXT_LINE_LIMIT};
pub use lines::{Found, LineFault, Lines};
pub use memory::{MemSink, MemSource};
pub use out::{Out, WriteFault};
pub use outside::{Failed, Sink, Source};
pub use text_line::TextLine;
pub use writer::Writer;
