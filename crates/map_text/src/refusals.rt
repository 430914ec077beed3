//! Why a line is refused.
use command_lines::LineFault;
use scene_book::EditFault;

/// Why a line is refused.
#[derive(Debug, Drop)]
pub enum Refusal {
    /// It has more than 65,536 bytes.
    LongLine,
    /// It says no command, or its part is faulty.
    Line(LineFault),
    /// The scene can't take its edit.
    Edit(EditFault),
    /// An undo names a version that isn't kept.
    NoSuchVersion { version: u64 },
}
