ghost use Rattle.std.specs.Prelude.{◌≡◌, length};
ghost use Rattle.std.specs.Option.{is_some};
ghost use Rattle.sy_outside.specs.Outside.{HasCause};
ghost use Rattle.sy_outside.specs.Writing.{WritesAll};

use crate::{Failed, Sink};

/// Writes all the bytes, in as few writes as the sink takes. On `Failed` a prefix of them was
/// appended, and some were left to write.
pub fn write_all<W: Sink>(sink: &mut W, bytes: &[u8]) -> Result<(), Failed>
    ensures bytes { WritesAll (W.held sink.old) (W.held sink.new) result bytes.now }
    ensures cause { HasCause (W.faults sink.old) (W.faults sink.new) result }
    ensures told { is_some (W.held sink.new) ≡ is_some (W.held sink.old) }
{
    let mut done = 0;
    'pieces: while done < bytes.len() {
        done += sink.write(&bytes[done..])?;
    }
    Ok(())
}
