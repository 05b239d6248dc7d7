//! The outside: where bytes come from, and where they go.
ghost use Rattle.std.specs.Prelude.{◌≡◌, ◌<◌, ◌≤◌, ℕ, List, length, take, IfOk, ⊤};
ghost use Rattle.std.specs.declared.option.Option.{Option};
ghost use Rattle.std.specs.Io.KnownBytes.{ReadConsumes, WriteAppends};
ghost use Rattle.line_io.specs.Calls.{Putting, Taking};
ghost use Rattle.line_io.specs.Causes.{Count, HasCause};

/// A source or a sink failed: nothing was taken.
#[derive(Clone, Copy)]
pub struct Failed;

/// Where bytes come from. A source that gave 0 bytes has ended.
pub trait Source {
    /// The bytes that are left, where it tells them.
    ghost left: { Self → Option (List ℕ) };

    /// How often it failed.
    ghost faults: { Self → Count };

    /// What one call may do, by the room that it is offered and its answer.
    ghost takes: { Taking Self } = { λ _ _ _ _. ⊤ };

    /// Takes the next bytes to the front of `into`, and answers how many; 0 only at the end.
    fn take(&mut self, into: &mut [u8]) -> Result<usize, Failed>
        requires { 0 < length into.old }
        ensures bound { IfOk result (λ n. n ≤ length into.new) }
        ensures bytes { ReadConsumes (left self.old) (left self.new) result into.new }
        ensures cause { HasCause (faults self.old) (faults self.new) result }
        ensures takes { takes self.old (length into.old) result self.new };
}

/// Where bytes go.
pub trait Sink {
    /// The bytes that it holds, where it tells them.
    ghost held: { Self → Option (List ℕ) };

    /// How often it failed.
    ghost faults: { Self → Count };

    /// What one call may do, by the bytes that it is offered and its answer.
    ghost puts: { Putting Self } = { λ _ _ _ _. ⊤ };

    /// Takes some of the bytes from the front of `piece`, and answers how many.
    fn put(&mut self, piece: &[u8]) -> Result<usize, Failed>
        requires { 0 < length piece.now }
        ensures bound { IfOk result (λ n. (0 < n) × (n ≤ length piece.now)) }
        ensures bytes { WriteAppends (held self.old) (held self.new) result piece.now }
        ensures cause { HasCause (faults self.old) (faults self.new) result }
        ensures puts { puts self.old piece.now result self.new };
}
