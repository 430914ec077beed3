//! Where bytes go.
ghost use Rattle.std.specs.Prelude.{List, ℕ, Option, OnOk, OnErr};
ghost use Rattle.std.specs.Io.{WritesAtMost};
ghost use Rattle.std.specs.Io.KnownBytes.{Appends, WriteAppends};
ghost use Rattle.map_io.specs.Causes.{HasCause};
ghost use Rattle.map_io.specs.Putting.{TakesSome, TakesPart};

use crate::Failed;

/// Where bytes go.
pub trait Sink {
    /// The bytes taken so far, where the sink tells them.
    ghost taken: { Self → Option (List ℕ) };

    /// How often it has failed. A write that is answered leaves the number as it is, and one that fails raises it.
    ghost faults: { Self → ℕ };

    /// Takes bytes from the front of `piece`, and answers how many: none only of an empty piece. After `Failed` the
    /// bytes taken are those from before.
    fn write(&mut self, piece: &[u8]) -> Result<usize, Failed>
        ensures bound { WritesAtMost result piece.now }
        ensures some { TakesSome result piece.now }
        ensures bytes { WriteAppends (taken self.old) (taken self.new) result piece.now }
        ensures cause { HasCause (faults self.old) (faults self.new) result };
}

/// Writes the whole piece. After `Failed` the sink has taken a front of it that isn't the whole piece.
pub fn put_all<K: Sink>(sink: &mut K, piece: &[u8]) -> Result<(), Failed>
    ensures whole { OnOk result (Appends (K.taken sink.old) (K.taken sink.new) piece.now) }
    ensures part { OnErr result (TakesPart (K.taken sink.old) (K.taken sink.new) piece.now) }
    ensures cause { HasCause (K.faults sink.old) (K.faults sink.new) result }
{
    let mut rest = piece;
    while !rest.is_empty() {
        let taken = sink.write(rest)?;
        rest = rest.split_at(taken).1;
    }
    Ok(())
}
