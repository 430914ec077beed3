//! How a run ends.
ghost use Rattle.std.specs.Prelude.{◌≡◌};
ghost use Rattle.noise_map.specs.Status.{exit_code_of, fault_of};
ghost use Rattle.noise_map.specs.inner.Progress as progress;

use map_lock::EditorSeat;
use thiserror::Error;

/// How a run ended.
#[derive(Clone, Copy)]
pub enum Status {
    /// The input ended, and no line was refused.
    Done,
    /// The input ended, and at least one line was refused.
    SomeRefused,
    /// The words are no command line. Nothing was read or written.
    Usage,
    /// The input failed.
    ReadFault,
    /// The output failed.
    WriteFault,
    /// There was no memory.
    NoMemory,
    /// 67,108,864 bytes were read, and one more came.
    InputLimit,
}

impl Status {
    /// The exit status of the program, from 0 to 6.
    pub fn exit_code(self) -> u8
        ensures { result ≡ exit_code_of self }
    {
        match self {
            Status::Done => 0,
            Status::SomeRefused => 1,
            Status::Usage => 2,
            Status::ReadFault => 3,
            Status::WriteFault => 4,
            Status::NoMemory => 5,
            Status::InputLimit => 6,
        }
    }

    /// What is said of it on standard error, for those statuses that break a run off.
    pub fn fault(self) -> Option<Fault>
        ensures { result ≡ fault_of self }
    {
        match self {
            Status::Done | Status::SomeRefused => None,
            Status::Usage => Some(Fault::Usage),
            Status::ReadFault => Some(Fault::Read),
            Status::WriteFault => Some(Fault::Write),
            Status::NoMemory => Some(Fault::Memory),
            Status::InputLimit => Some(Fault::Limit),
        }
    }
}

/// The status of a run whose lines have come to their end.
pub fn status_at_end(refused: bool) -> Status
    ensures { result ≡ progress.status_at_end refused }
{
    if refused {
        Status::SomeRefused
    } else {
        Status::Done
    }
}

/// What broke a run off, as standard error says it.
#[derive(Clone, Copy, Debug, Drop, Error, PartialEq, Eq)]
pub enum Fault {
    #[error("usage")]
    Usage,
    #[error("read fault")]
    Read,
    #[error("write fault")]
    Write,
    #[error("no memory")]
    Memory,
    #[error("input limit")]
    Limit,
}

/// How the lines of a run ended.
#[derive(Clone, Copy)]
pub struct Ending {
    pub status: Status,
    /// How many lines were done, blank and refused ones among them.
    pub lines: u64,
}

impl Ending {
    /// There was no memory, behind so many lines.
    pub fn without_memory(lines: u64) -> Ending
        ensures status { result.status ≡ Status.NoMemory }
        ensures lines { result.lines ≡ lines }
    {
        Ending {
            status: Status::NoMemory,
            lines,
        }
    }
}

/// What a run answers.
#[derive(Drop)]
pub struct Report {
    /// How it ended.
    pub status: Status,
    /// How many lines were done, blank and refused ones among them: lines of the input that the reader handed out, or lines
    /// of a generated site; 0 with `Usage`.
    pub lines: u64,
    /// The editor's seat, with the whole history of the board. There is none where nothing was begun.
    pub seat: Option<EditorSeat>,
}
