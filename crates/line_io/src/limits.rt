//! The limits on an input, and the sizes of the buffers.

/// The most bytes of a line without its end.
pub const LINE_LIMIT: usize = 200;

/// The most bytes of an input.
pub const INPUT_LIMIT: u32 = 50_000_000;

/// The bytes of a reader's buffer, and of a writer's.
pub const BUFFER_SIZE: usize = 4096;

/// The least room that a source is offered.
pub const LEAST_OFFER: usize = 2048;

/// The most bytes of one `put`.
pub const PUT_LIMIT: usize = 1024;

/// The most bytes of a line of output without its end.
pub const TEXT_LINE_LIMIT: usize = 255;
