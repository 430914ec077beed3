//! Why rows could not be written to their end.
ghost use Rattle.std.specs.Prelude.{◌≡◌};
ghost use Rattle.map_text.specs.declared.stopped.Stopped.TheVariants as reasons;

use map_io::Failed;
use scene_parts::NoMemory;

/// Why the rows of a line could not be written to their end. The sink has then taken some first rows whole.
#[derive(Clone, Copy)]
pub enum Stopped {
    /// The sink failed. It has taken a part of the next row that isn't the whole row.
    WriteFault,
    /// There was no memory. The sink has taken nothing of the next row.
    NoMemory,
}

impl From<Failed> for Stopped {
    ghost from_gives = { λ _ stopped. stopped ≡ reasons.WriteFault };

    fn from(_: Failed) -> Self {
        Stopped::WriteFault
    }
}

impl From<NoMemory> for Stopped {
    ghost from_gives = { λ _ stopped. stopped ≡ reasons.NoMemory };

    fn from(_: NoMemory) -> Self {
        Stopped::NoMemory
    }
}
