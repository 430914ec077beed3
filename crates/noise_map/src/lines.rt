//! The lines of an input, one after another.
ghost use Rattle.std.specs.Prelude.{◌≡◌, ℕ, List, [], IfOk};
ghost use Rattle.map_text.specs.Taking.{Takes, CausedByWriteFault};
ghost use Rattle.map_lock.specs.Settling.{HasNotFinished};
ghost use Rattle.noise_map.specs.Demands.{demand_of};
ghost use Rattle.noise_map.specs.Texts.{rows_of};
ghost use Rattle.noise_map.specs.inner.Answers.{ShowsFew};
ghost use Rattle.noise_map.specs.inner.Steps.{Knows, MeetsUnlessMemory};
ghost use Rattle.noise_map.specs.inner.Progress.{ending_of, status_of, IsLineOf, IsTextOf, HasWritten, HasEnded, Ended};
ghost use Rattle.noise_map.specs.Outcome.{TellsFault};

pub(crate) mod answer;
pub(crate) mod contours;
pub(crate) mod step;

use crate::lines::answer::Answer;
use crate::lines::contours::write_contours;
use crate::lines::step::{Context, refuse_long};
use crate::run::editor::Editor;
use crate::run::status::{Ending, Status, status_at_end};
use command_words::CommandLine;
use map_io::{Gate, LineReader, Next, Sink, Source};
use map_text::{Head, RowWriter, Rows, Stopped};
use scene_parts::NoMemory;
use std::sync::Wait;
use std::thread::Threads;

/// The status with which an answer of the reader ends a run, if it is no line.
fn ending(next: Next, refused: bool) -> Option<Status>
    ensures { result ≡ ending_of next refused }
{
    match next {
        Next::Line(_) | Next::LongLine => None,
        Next::End => Some(status_at_end(refused)),
        Next::ReadFault => Some(Status::ReadFault),
        Next::InputLimit => Some(Status::InputLimit),
    }
}

fn status_when(stopped: Stopped) -> Status
    ensures { result ≡ status_of stopped }
{
    match stopped {
        Stopped::WriteFault => Status::WriteFault,
        Stopped::NoMemory => Status::NoMemory,
    }
}

/// Writes the rows of a line of this number, before which the version was this. No row of an accepted edit tells it.
fn show<K: Sink>(
    writer: &mut RowWriter,
    words: CommandLine,
    number: u64,
    version: u64,
    answer: &Answer,
    out: &mut K,
) -> Result<(), Stopped>
    requires { ShowsFew answer.now }
    ensures taken { Takes result (K.taken out.old) (K.taken out.new)
        (rows_of words number version answer.now) }
    ensures cause { CausedByWriteFault result (K.faults out.old) (K.faults out.new) }
{
    let mut rows = Rows {
        writer,
        out,
        bands: words.bands,
        counts: words.counts,
    };
    match answer {
        Answer::Nothing => Ok(()),
        Answer::Refused(fault) => rows.refuse(version, number, fault),
        Answer::Settled(look) => rows.settle(look),
        Answer::Looked(look) => rows.look(Head::Look, look),
        Answer::Contoured(contour, look) => write_contours(&mut rows, contour, look),
    }
}

/// Does the line that the reader has handed out, or refuses the long one that it has passed over.
fn do_next<R: Threads + Wait + Sync, G: Gate>(
    context: &Context<R, G>,
    editor: &mut Editor,
    next: Next,
    line: &[u8],
) -> Result<Answer, NoMemory>
    requires own { editor.old.seat.table ≡ context.now.lock.now }
    requires unfinished { HasNotFinished editor.old.seat.mine }
    requires knows { Knows editor.old }
    requires line { IsLineOf next line.now }
    ensures done { (text : List ℕ) → IsTextOf next line.now text
        → MeetsUnlessMemory editor.old (demand_of text) result editor.new }
    ensures few { IfOk result ShowsFew }
{
    if matches!(next, Next::LongLine) {
        Ok(refuse_long())
    } else {
        context.line(editor, line)
    }
}

/// Does that line, of this number, writes its rows, and tells whether it was refused.
fn do_and_show<R: Threads + Wait + Sync, G: Gate, K: Sink>(
    context: &Context<R, G>,
    words: CommandLine,
    editor: &mut Editor,
    number: u64,
    next: Next,
    line: &[u8],
    writer: &mut RowWriter,
    out: &mut K,
) -> Result<bool, Stopped>
    requires own { editor.old.seat.table ≡ context.now.lock.now }
    requires unfinished { HasNotFinished editor.old.seat.mine }
    requires knows { Knows editor.old }
    requires line { IsLineOf next line.now }
    ensures done { (text : List ℕ) → IsTextOf next line.now text
        → HasWritten result words number editor.old text editor.new (K.taken out.old) (K.taken out.new) }
    ensures cause { CausedByWriteFault result (K.faults out.old) (K.faults out.new) }
{
    let version = editor.version;
    let answer = do_next(context, editor, next, line)?;
    show(writer, words, number, version, &answer, out)?;
    Ok(answer.is_refusal())
}

/// Reads line after line of the input and does each, until the input ends or something stops it.
pub fn do_lines<R: Threads + Wait + Sync, G: Gate, S: Source, K: Sink>(
    context: &Context<R, G>,
    words: CommandLine,
    editor: &mut Editor,
    input: &mut S,
    out: &mut K,
) -> Ending
    requires own { editor.old.seat.table ≡ context.now.lock.now }
    requires nothing { editor.old.seat.mine ≡ [] }
    requires knows { Knows editor.old }
    ensures ended { Ended words result.status result.lines
        (λ done. HasEnded result.status done editor.old.seat editor.new.seat) editor.new.seat
        (S.left input.old) (S.left input.new) (K.taken out.old) (K.taken out.new) }
    ensures read_fault { TellsFault Status.ReadFault result.status (S.faults input.old) (S.faults input.new) }
    ensures write_fault { TellsFault Status.WriteFault result.status (K.faults out.old) (K.faults out.new) }
{
    let Ok(mut reader) = LineReader::new(context.alloc) else {
        return Ending::without_memory(0);
    };
    let mut writer = RowWriter::new(context.alloc);
    let mut lines = 0;
    let mut refused = false;
    loop {
        let next = reader.next(input);
        if let Some(status) = ending(next, refused) {
            return Ending { status, lines };
        }
        lines += 1;
        match do_and_show(
            context,
            words,
            editor,
            lines,
            next,
            reader.line(),
            &mut writer,
            out,
        ) {
            Ok(is_refused) => refused |= is_refused,
            Err(stopped) => {
                return Ending {
                    status: status_when(stopped),
                    lines,
                };
            }
        }
    }
}
