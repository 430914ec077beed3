//! What is shown of a line.
ghost use Rattle.std.specs.Prelude.{◌≡◌};
ghost use Rattle.noise_map.specs.inner.Steps.{is_refusal};

use command_lines::ContourSpec;
use map_board::LookAll;
use map_text::Refusal;

/// What is shown of a line that was done.
#[derive(Drop)]
pub enum Answer {
    /// Nothing: it was blank, or its edits were accepted.
    Nothing,
    /// The row of its refusal.
    Refused(Refusal),
    /// The rows of a settle.
    Settled(LookAll),
    /// The rows of a look.
    Looked(LookAll),
    /// The rows of the contours of a settled board.
    Contoured(ContourSpec, LookAll),
}

impl Answer {
    /// Whether the line was refused.
    pub fn is_refusal(&self) -> bool
        ensures { result ≡ is_refusal self.now }
    {
        matches!(self, Answer::Refused(_))
    }
}
