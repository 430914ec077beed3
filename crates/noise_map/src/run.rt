//! The top call: all that the program does.
ghost use Rattle.std.specs.Prelude.{◌≡◌, ◌≢◌, ◌≤◌, ◌<◌, ◌^◌, ◌⊎◌, [], length, All, map, string_bytes, Some, None, IsSome, IfSome};
ghost use Rattle.std.specs.List.{AllZip};
ghost use Rattle.map_io.specs.Causes.{Rose};
ghost use Rattle.command_words.specs.Words.{command_line_of};
ghost use Rattle.noise_map.specs.inner.Teams.{IsFresh, IsBack};
ghost use Rattle.noise_map.specs.inner.Progress.{HasEnded, HasFinished, AskedEnded};
ghost use Rattle.noise_map.specs.inner.Steps.{Knows};
ghost use Rattle.noise_map.specs.Outcome.{RunOutcome, TellsFault, RunsToTheEnd};

pub(crate) mod editor;
pub(crate) mod status;
pub(crate) mod team;

use crate::lines::do_lines;
use crate::lines::step::Context;
use crate::make::run_site;
use crate::run::editor::Editor;
use crate::run::status::{Ending, Report, Status};
use crate::run::team::{Team, join_all};
use command_words::{CommandLine, WordsFault, command_line};
use map_io::{Gate, Sink, Source};
use map_lock::WorkerSeat;
use receiver_workers::with_workers;
use std::alloc::Global;
use std::sync::Wait;
use std::thread::Threads;

/// What a run answers that could not be begun.
fn not_begun(status: Status) -> Report
    ensures { result ≡ record { status = status; lines = 0; seat = None } }
{
    Report {
        status,
        lines: 0,
        seat: None,
    }
}

/// Does the lines of the input, or those of the generated site that is asked for in its place.
fn do_asked<R: Threads + Wait + Sync, G: Gate, S: Source, K: Sink>(
    context: &Context<R, G>,
    words: CommandLine,
    editor: &mut Editor,
    input: &mut S,
    out: &mut K,
) -> Ending
    requires own { editor.old.seat.table ≡ context.now.lock.now }
    requires nothing { editor.old.seat.mine ≡ [] }
    requires knows { Knows editor.old }
    ensures ended { AskedEnded words.make words result.status result.lines
        (λ done. HasEnded result.status done editor.old.seat editor.new.seat) editor.new.seat
        (S.left input.old) (S.left input.new) (K.taken out.old) (K.taken out.new) }
    ensures read_fault { TellsFault Status.ReadFault result.status (S.faults input.old) (S.faults input.new) }
    ensures write_fault { TellsFault Status.WriteFault result.status (K.faults out.old) (K.faults out.new) }
    ensures unread { IsSome words.make → input.new ≡ input.old }
{
    match words.make {
        Some(number) => run_site(context, number, editor, out),
        None => do_lines(context, words, editor, input, out),
    }
}

/// The editor does the lines of the input, or of the generated site that is asked for in its place, and then finishes the
/// board, beside the workers.
fn edit_beside<R: Threads + Wait + Sync, G: Gate + Sync, S: Source + Send, K: Sink + Send>(
    context: &Context<R, G>,
    words: CommandLine,
    workers: &mut [WorkerSeat],
    editor: &mut Editor,
    input: &mut S,
    out: &mut K,
) -> Ending
    requires own { editor.old.seat.table ≡ context.now.lock.now }
    requires theirs { All (IsFresh context.now.lock.now) workers.old }
    requires few { length workers.old < 2 ^ 32 }
    requires nothing { editor.old.seat.mine ≡ [] }
    requires knows { Knows editor.old }
    ensures finished { AskedEnded words.make words result.status result.lines
        (λ done. HasFinished result.status done editor.old.seat editor.new.seat) editor.new.seat
        (S.left input.old) (S.left input.new) (K.taken out.old) (K.taken out.new) }
    ensures read_fault { TellsFault Status.ReadFault result.status (S.faults input.old) (S.faults input.new) }
    ensures write_fault { TellsFault Status.WriteFault result.status (K.faults out.old) (K.faults out.new) }
    ensures unread { IsSome words.make → input.new ≡ input.old }
    ensures back { All (IsBack context.now.lock.now) workers.new }
{
    with_workers(
        context.rt,
        context.lock,
        context.gate,
        workers,
        &mut || -> Ending
            requires { (editor.now.seat.table ≡ context.now.lock.now) × (editor.now.seat.mine ≡ [])
                × Knows editor.now }
            ensures { AskedEnded words.make words result.status result.lines
                (λ done. HasFinished result.status done editor.entry.now.seat editor.exit.now.seat) editor.exit.now.seat
                (S.left input.entry.now) (S.left input.exit.now) (K.taken out.entry.now) (K.taken out.exit.now)
                × TellsFault Status.ReadFault result.status (S.faults input.entry.now) (S.faults input.exit.now)
                × TellsFault Status.WriteFault result.status (K.faults out.entry.now) (K.faults out.exit.now)
                × (IsSome words.make → input.exit.now ≡ input.entry.now) }
        {
            let ending = do_asked(context, words, editor, input, out);
            context.lock.finish(context.rt, &mut editor.seat);
            ending
        },
    )
}

/// A run with an empty board: over the input, or over a generated site in its place.
fn run_asked<R: Threads + Wait + Sync, S: Source + Send, K: Sink + Send, G: Gate + Sync>(
    rt: &R,
    alloc: Global,
    words: CommandLine,
    input: &mut S,
    out: &mut K,
    gate: &G,
) -> Report
    requires { words.workers ≤ 16 }
    ensures outcome { RunOutcome words result.status result.lines result.seat
        (S.left input.old) (S.left input.new) (K.taken out.old) (K.taken out.new) }
    ensures read_fault { TellsFault Status.ReadFault result.status (S.faults input.old) (S.faults input.new) }
    ensures write_fault { TellsFault Status.WriteFault result.status (K.faults out.old) (K.faults out.new) }
    ensures unread { IsSome words.make → input.new ≡ input.old }
{
    let Ok(team) = Team::gather(rt, alloc, words.workers) else {
        return not_begun(Status::NoMemory);
    };
    let Team {
        lock,
        editor,
        mut workers,
    } = team;
    let Ok(mut editor) = Editor::new(alloc, editor) else {
        return not_begun(Status::NoMemory);
    };
    let context = Context {
        rt,
        alloc,
        lock: &lock,
        gate,
    };
    let ending = edit_beside(
        &context,
        words,
        workers.as_mut_slice(),
        &mut editor,
        input,
        out,
    );
    join_all(&lock, &mut editor.seat, workers);
    Report {
        status: ending.status,
        lines: ending.lines,
        seat: Some(editor.seat),
    }
}

/// All that the program does: it reads the words of the command line, then line after line of the input, and writes the
/// rows of each line before the next is read; or it does the lines of a generated site, and writes one row. So many workers
/// as the words ask for calculate beside it, from the start to the end.
pub fn run<R: Threads + Wait + Sync, S: Source + Send, K: Sink + Send, G: Gate + Sync>(
    rt: &R,
    alloc: Global,
    words: &[String],
    input: &mut S,
    out: &mut K,
    gate: &G,
) -> Report
    // The words are no command line: nothing is read or written.
    ensures usage { result.status ≡ Status.Usage → command_line_of (map string_bytes words.now) ≡ None }
    ensures no_command { command_line_of (map string_bytes words.now) ≡ None
        → ((result.status ≡ Status.Usage) ⊎ (result.status ≡ Status.NoMemory))
        × (input.new ≡ input.old) × (out.new ≡ out.old) × (result.lines ≡ 0) × (result.seat ≡ None) }

    // Else the lines done, by the status, what the sink has taken of their text, and the history of the board: with the rows
    // of bands and of counts where they are asked for, or the one row of a generated site, for which nothing of the input is
    // read.
    ensures outcome { IfSome (command_line_of (map string_bytes words.now)) (λ asked.
        RunOutcome asked result.status result.lines result.seat
        (S.left input.old) (S.left input.new) (K.taken out.old) (K.taken out.new)) }
    ensures unread { IfSome (command_line_of (map string_bytes words.now)) (λ asked.
        IsSome asked.make → input.new ≡ input.old) }

    // A fault is answered only where the source or the sink has failed in this call.
    ensures read_fault { TellsFault Status.ReadFault result.status (S.faults input.old) (S.faults input.new) }
    ensures write_fault { TellsFault Status.WriteFault result.status (K.faults out.old) (K.faults out.new) }

    // Without a fault the run comes to the end of an input within the limit, unless there is no memory.
    ensures complete { command_line_of (map string_bytes words.now) ≢ None
        → (Rose (S.faults input.old) (S.faults input.new) → ⊥) → (Rose (K.faults out.old) (K.faults out.new) → ⊥)
        → RunsToTheEnd result.status (S.left input.old) }
{
    match command_line(alloc, words) {
        Ok(asked) => run_asked(rt, alloc, asked, input, out, gate),
        Err(WordsFault::Usage) => not_begun(Status::Usage),
        Err(WordsFault::NoMemory) => not_begun(Status::NoMemory),
    }
}
