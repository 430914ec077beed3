//! A generated site in place of an input.
ghost use Rattle.std.specs.Prelude.{◌≡◌, ◌<◌, ◌-◌, ◌^◌, ◌==◌, [], position};
ghost use Rattle.std.specs.Option.{option_map};
ghost use Rattle.path_calc.specs.Levels.{IsLevel};
ghost use Rattle.map_lock.specs.Settling.{HasNotFinished};
ghost use Rattle.noise_map.specs.inner.FirstLine.{IsFirstLine};
ghost use Rattle.noise_map.specs.inner.Adding.{made_with_answer, AddsLine};
ghost use Rattle.noise_map.specs.inner.Answers.{ShowsFew};
ghost use Rattle.noise_map.specs.Outcome.{TellsFault};
ghost use Rattle.noise_map.specs.inner.Steps.{Knows};
ghost use Rattle.noise_map.specs.inner.Progress.{HasEnded, SiteEnded};

use crate::lines::answer::Answer;
use crate::lines::step::Context;
use crate::run::editor::Editor;
use crate::run::status::{Ending, Status, status_at_end};
use map_io::{Gate, Sink, put_all};
use map_text::SiteSummary;
use scene_parts::NoMemory;
use site_maker::site;
use std::sync::Wait;
use std::thread::Threads;

// Where the first line feed stands.
fn line_feed(bytes: &[u8]) -> Option<usize>
    ensures { result ≡ position (λ b. b == 10) bytes.now }
{
    bytes.iter().position(|byte| *byte == b'\n')
}

/// The first line of some bytes without its line feed, and the bytes behind it.
fn first_line(bytes: &[u8]) -> Option<(&[u8], &[u8])>
    ensures { IsFirstLine bytes.now (option_map (λ parts. (parts.0.now, parts.1.now)) result) }
{
    if bytes.is_empty() {
        return None;
    }
    match line_feed(bytes) {
        Some(end) => Some((&bytes[..end], &bytes[end + 1..])),
        None => Some((bytes, &bytes[bytes.len()..])),
    }
}

/// Adds what a line has done.
fn add(summary: &mut SiteSummary, answer: &Answer)
    requires refused { summary.old.refused < 2 ^ 64 - 1 }
    requires few { ShowsFew answer.now }
    requires level { IsLevel summary.old.span }
    ensures made { summary.new ≡ made_with_answer summary.old answer.now }
    ensures level { IsLevel summary.new.span }
{
    match answer {
        Answer::Nothing | Answer::Looked(_) | Answer::Contoured(_, _) => {}
        Answer::Refused(_) => summary.refuse(),
        Answer::Settled(look) => summary.settle(look),
    }
}

/// Does one line of a site, and adds what it has done.
fn make_line<R: Threads + Wait + Sync, G: Gate>(
    context: &Context<R, G>,
    editor: &mut Editor,
    line: &[u8],
    summary: &mut SiteSummary,
) -> Result<(), NoMemory>
    requires own { editor.old.seat.table ≡ context.now.lock.now }
    requires unfinished { HasNotFinished editor.old.seat.mine }
    requires knows { Knows editor.old }
    requires refused { summary.old.refused < 2 ^ 64 - 1 }
    requires level { IsLevel summary.old.span }
    ensures adds { AddsLine result editor.old summary.old line.now editor.new summary.new }
    ensures level { IsLevel summary.new.span }
{
    let answer = context.any_line(editor, line)?;
    add(summary, &answer);
    Ok(())
}

/// Does the lines of the generated site of this number, and writes the one row that tells what they come to.
pub fn run_site<R: Threads + Wait + Sync, G: Gate, K: Sink>(
    context: &Context<R, G>,
    number: u32,
    editor: &mut Editor,
    out: &mut K,
) -> Ending
    requires own { editor.old.seat.table ≡ context.now.lock.now }
    requires nothing { editor.old.seat.mine ≡ [] }
    requires knows { Knows editor.old }
    ensures ended { SiteEnded number result.status result.lines
        (λ done. HasEnded result.status done editor.old.seat editor.new.seat)
        (K.taken out.old) (K.taken out.new) }
    ensures write_fault { TellsFault Status.WriteFault result.status (K.faults out.old) (K.faults out.new) }
{
    let Ok(text) = site(context.alloc, number) else {
        return Ending::without_memory(0);
    };
    let mut summary = SiteSummary::empty();
    let mut lines = 0;
    let mut rest = text.as_slice();
    while let Some((line, after)) = first_line(rest) {
        lines += 1;
        let Ok(()) = make_line(context, editor, line, &mut summary) else {
            return Ending::without_memory(lines);
        };
        rest = after;
    }
    let Ok(row) = summary.row(context.alloc, number, editor.version) else {
        return Ending::without_memory(lines);
    };
    let status = match put_all(out, row.as_slice()) {
        Ok(()) => status_at_end(summary.refused > 0),
        Err(_) => Status::WriteFault,
    };
    Ending { status, lines }
}
