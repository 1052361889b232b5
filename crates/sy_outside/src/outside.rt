ghost use Rattle.std.specs.Prelude.{◌≡◌, ℕ, Bool, List, length, IsTrue, IfOk, ◌<◌};
ghost use Rattle.std.specs.declared.option.Option.{Option};
ghost use Rattle.std.specs.Option.{is_some};
ghost use Rattle.std.specs.Io.{ReadsAtMost, WritesAtMost};
ghost use Rattle.std.specs.Io.KnownBytes.{ReadConsumes, WriteAppends};
ghost use Rattle.sy_outside.specs.Outside.{HasCause, GivesFile};

use sy_base::Text;
use thiserror::Error;

/// How many bytes a read asks for at once.
pub(crate) const PIECE: usize = 65_536;

/// A call on an object outside failed. Nothing was taken or appended by it.
#[derive(Clone, Copy, Debug, PartialEq, Eq, Error)]
#[error("a call outside failed")]
pub struct Failed;

/// Files that are read by name.
///
/// An object may tell contracts what it holds, or tell nothing. It counts its faults, in a count
/// that never falls and that stops at 2^64 - 1.
pub trait Files {
    /// Whether a name is lent, so that it may be read.
    ghost lent: { Self → List ℕ → Bool };

    /// What is told of a name: nothing, or that the file is missing, or its bytes.
    ghost told: { Self → List ℕ → Option (Option (List ℕ)) };

    /// How many calls have failed.
    ghost faults: { Self → ℕ };

    /// Reads the file's bytes from `from` on into `buf`, and says how many. It gives at least one
    /// where some are there and `buf` isn't empty. A missing file is a fault.
    fn read(&mut self, name: &Text, from: u64, buf: &mut [u8]) -> Result<usize, Failed>
        requires { IsTrue (lent self.old name.now) }
        ensures bound { ReadsAtMost result buf.new }
        ensures bytes { GivesFile (told self.old name.now) from result buf.new }
        ensures cause { HasCause (faults self.old) (faults self.new) result }
        ensures lent { (n : List ℕ) → lent self.new n ≡ lent self.old n }
        ensures told { (n : List ℕ) → told self.new n ≡ told self.old n };
}

/// A stream of bytes that is read once, from its beginning to its end.
pub trait Source {
    /// The bytes that are left, where the object tells them.
    ghost left: { Self → Option (List ℕ) };

    /// How many calls have failed.
    ghost faults: { Self → ℕ };

    /// Takes the next bytes into `buf`, and says how many: at least one where some are left and
    /// `buf` isn't empty.
    fn read(&mut self, buf: &mut [u8]) -> Result<usize, Failed>
        ensures bound { ReadsAtMost result buf.new }
        ensures bytes { ReadConsumes (left self.old) (left self.new) result buf.new }
        ensures cause { HasCause (faults self.old) (faults self.new) result }
        ensures told { is_some (left self.new) ≡ is_some (left self.old) };
}

/// A stream of bytes that is written.
pub trait Sink {
    /// The bytes that it holds, where the object tells them.
    ghost held: { Self → Option (List ℕ) };

    /// How many calls have failed.
    ghost faults: { Self → ℕ };

    /// Appends the first of these bytes, and says how many: at least one where there is one.
    fn write(&mut self, bytes: &[u8]) -> Result<usize, Failed>
        ensures bound { WritesAtMost result bytes.now }
        ensures progress { IfOk result (λ n. 0 < length bytes.now → 0 < n) }
        ensures bytes { WriteAppends (held self.old) (held self.new) result bytes.now }
        ensures cause { HasCause (faults self.old) (faults self.new) result }
        ensures told { is_some (held self.new) ≡ is_some (held self.old) };
}
