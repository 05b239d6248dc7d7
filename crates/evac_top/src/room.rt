//! The memory of a run that reads and writes.
ghost use Rattle.std.specs.Prelude.{◌≡◌, [], IfOk};
ghost use Rattle.evac_top.specs.Reads.{IsFresh};

use line_io::{Lines, Out};
use std::alloc::{AllocError, Global};

/// Takes the memory to read lines, and to write.
pub(crate) fn take_room(alloc: Global) -> Result<(Lines, Out), AllocError>
    ensures fresh { IfOk result (λ room. IsFresh room.0) }
    ensures empty { IfOk result (λ room. room.1 ≡ []) }
{
    let lines = Lines::new(alloc)?;
    let out = Out::new(alloc)?;
    Ok((lines, out))
}
