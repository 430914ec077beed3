//! One line after another: what each does at the board.
ghost use Rattle.std.specs.Prelude.{◌≡◌, ◌≤◌, ◌<◌, ℕ, true, false, List, length, Result, Ok};
ghost use Rattle.scene_parts.specs.Answers.{MatchesUnlessMemory};
ghost use Rattle.command_lines.specs.declared.commands.Command.{Command as CommandSaid};
ghost use Rattle.command_lines.specs.declared.commands.Command.TheVariants as commands;
ghost use Rattle.command_lines.specs.Answers as answers;
ghost use Rattle.command_lines.specs.Lines.{command_of};
ghost use Rattle.map_io.specs.Reading.{line_limit};
ghost use Rattle.map_lock.specs.Settling.{HasNotFinished};
ghost use Rattle.noise_map.specs.Demands.{command as asks, demand_read, demand_of, is_blank, is_blank_byte};
ghost use Rattle.noise_map.specs.inner.Answers.{ShowsFew};
ghost use Rattle.noise_map.specs.declared.run.editor.Editor.{Editor as EditorSaid};
ghost use Rattle.noise_map.specs.inner.Steps.{Knows, IsBatch, has_lacked, MakesUnlessMemory, MakesAllUnlessMemory, MeetsEditsUnlessMemory, MeetsUnlessMemory};
ghost use Rattle.scene_book.specs.Applying.{lacks_memory};
ghost use Rattle.scene_book.specs.declared.edits.Edit.{Edit as EditSaid};
ghost use Rattle.scene_book.specs.declared.edits.EditFault.{EditFault as FaultSaid};

use crate::lines::answer::Answer;
use crate::run::editor::{Editor, edit_lacks_memory, follow};
use command_lines::{Command, ContourSpec, LineFault, command};
use level_contours::first_missing;
use line_sources::{LineEdits, batch_edits};
use map_board::laws::runs_show_right;
use map_io::Gate;
use map_lock::MapLock;
use map_text::Refusal;
use scene_book::{Edit, EditFault};
use scene_parts::NoMemory;
use scene_undo::{KeptVersion, inverse, keeps, make_room, never_fits, take_later};
use std::alloc::Global;
use std::sync::Wait;
use std::thread::Threads;

/// How many bytes a line has at most.
const LONGEST: usize = 65_536;

/// The board that lines act on, and what its calls need.
#[derive(Drop)]
pub struct Context<'a, R, G> {
    pub rt: &'a R,
    pub alloc: Global,
    pub lock: &'a MapLock,
    pub gate: &'a G,
}

/// Whether there was no memory for an edit.
fn lacked(made: &Result<(), EditFault>) -> bool
    ensures { result ≡ has_lacked made.now }
{
    matches!(made, Err(EditFault::NoMemory))
}

fn is_blank_text(line: &[u8]) -> bool
    ensures { result ≡ is_blank line.now }
{
    line.iter().all(|byte| is_blank_char(*byte))
}

fn is_blank_char(byte: u8) -> bool
    ensures { result ≡ is_blank_byte byte }
{
    byte == b' ' || byte == b'\t' || byte == b'\r'
}

fn line_lacks_memory(fault: &LineFault) -> bool
    ensures { result ≡ answers.lacks_memory fault.now }
{
    matches!(fault, LineFault::NoMemory)
}

impl<'a, R: Threads + Wait + Sync, G: Gate> Context<'a, R, G> {
    /// Has an edit made, at the board and in the scene that the editor knows. Its version is kept or not.
    fn make(&self, editor: &mut Editor, edit: Edit, keeps: bool) -> Result<(), EditFault>
        requires own { editor.old.seat.table ≡ self.now.lock.now }
        requires knows { Knows editor.old }
        ensures { MakesUnlessMemory keeps editor.old edit result editor.new }
    {
        if keeps {
            self.make_kept(editor, edit)
        } else {
            self.make_alone(editor, edit)
        }
    }

    /// Has an edit made, and keeps its version where the scene takes it.
    fn make_kept(&self, editor: &mut Editor, edit: Edit) -> Result<(), EditFault>
        requires own { editor.old.seat.table ≡ self.now.lock.now }
        requires knows { Knows editor.old }
        ensures { MakesUnlessMemory true editor.old edit result editor.new }
    {
        if never_fits(&edit) {
            return self.make_alone(editor, edit);
        }
        let back = inverse(self.alloc, &edit, &editor.scene)?;
        make_room(&mut editor.kept)?;
        self.make_alone(editor, edit)?;
        let version = editor.version;
        editor.kept.push_reserved(KeptVersion { version, back });
        Ok(())
    }

    /// Has an edit made, and keeps no version.
    fn make_alone(&self, editor: &mut Editor, edit: Edit) -> Result<(), EditFault>
        requires own { editor.old.seat.table ≡ self.now.lock.now }
        requires knows { Knows editor.old }
        ensures made { MakesUnlessMemory false editor.old edit result editor.new }
        ensures kept { editor.new.kept ≡ editor.old.kept }
    {
        runs_show_right();
        follow(&mut editor.scene, self.alloc, &edit)?;
        let version = self.lock.edit(self.rt, self.alloc, &mut editor.seat, edit)?;
        editor.version = version;
        Ok(())
    }

    /// Has edits made one after the other, whose versions are kept or not. The scene takes each of them.
    fn make_all(
        &self,
        editor: &mut Editor,
        mut edits: Vec<Edit>,
        keeps: bool,
    ) -> Result<(), NoMemory>
        requires own { editor.old.seat.table ≡ self.now.lock.now }
        requires knows { Knows editor.old }
        ensures { MakesAllUnlessMemory keeps editor.old edits.items result editor.new }
    {
        // The first is taken off the end.
        edits.reverse();
        while let Some(edit) = edits.pop() {
            let made = self.make(editor, edit, keeps);
            if lacked(&made) {
                return Err(NoMemory);
            }
        }
        Ok(())
    }

    /// Has an edit made: where the scene takes it, this is the next version.
    fn edit(&self, editor: &mut Editor, edit: Edit) -> Result<Answer, NoMemory>
        requires own { editor.old.seat.table ≡ self.now.lock.now }
        requires knows { Knows editor.old }
        ensures { MeetsUnlessMemory editor.old (asks (commands.Edit edit)) result editor.new }
    {
        match self.make(editor, edit, true) {
            Ok(()) => Ok(Answer::Nothing),
            Err(fault) if edit_lacks_memory(&fault) => Err(NoMemory),
            Err(fault) => Ok(Answer::Refused(Refusal::Edit(fault))),
        }
    }

    /// Has edits made together, or none where one of them would be refused.
    fn make_or_refuse(
        &self,
        editor: &mut Editor,
        edits: Result<LineEdits, EditFault>,
    ) -> Result<Answer, NoMemory>
        requires own { editor.old.seat.table ≡ self.now.lock.now }
        requires knows { Knows editor.old }
        ensures { (expected : Result (List EditSaid) FaultSaid)
            → MatchesUnlessMemory lacks_memory edits expected
            → MeetsEditsUnlessMemory editor.old expected result editor.new }
    {
        match edits {
            Ok(edits) => {
                self.make_all(editor, edits.into_vec(), true)?;
                Ok(Answer::Nothing)
            }
            Err(fault) if edit_lacks_memory(&fault) => Err(NoMemory),
            Err(fault) => Ok(Answer::Refused(Refusal::Edit(fault))),
        }
    }

    /// Does a command that makes edits together.
    fn batch(&self, editor: &mut Editor, command: &Command) -> Result<Answer, NoMemory>
        requires own { editor.old.seat.table ≡ self.now.lock.now }
        requires knows { Knows editor.old }
        requires batch { IsBatch command.now }
        ensures { MeetsUnlessMemory editor.old (asks command.now) result editor.new }
    {
        let edits = batch_edits(self.alloc, command, &editor.scene);
        self.make_or_refuse(editor, edits)
    }

    /// Makes the scene what it was at a version, unless that isn't kept.
    fn undo(&self, editor: &mut Editor, version: u64) -> Result<Answer, NoMemory>
        requires own { editor.old.seat.table ≡ self.now.lock.now }
        requires knows { Knows editor.old }
        ensures { MeetsUnlessMemory editor.old (asks (commands.Undo version)) result editor.new }
    {
        if !keeps(editor.kept.as_slice(), version) {
            return Ok(Answer::Refused(Refusal::NoSuchVersion { version }));
        }
        let edits = take_later(self.alloc, &mut editor.kept, version)?;
        self.make_all(editor, edits, false)?;
        Ok(Answer::Nothing)
    }

    /// Settles the board for contours, unless a receiver of their grid is missing.
    fn contours(&self, editor: &mut Editor, contour: ContourSpec) -> Result<Answer, NoMemory>
        requires own { editor.old.seat.table ≡ self.now.lock.now }
        requires unfinished { HasNotFinished editor.old.seat.mine }
        requires knows { Knows editor.old }
        ensures { MeetsUnlessMemory editor.old (asks (commands.Contour contour)) result editor.new }
    {
        if let Some(name) = first_missing(self.alloc, &contour, &editor.scene)? {
            return Ok(Answer::Refused(Refusal::Edit(EditFault::NoSuchName { name })));
        }
        runs_show_right();
        let shown = self
            .lock
            .settle(self.rt, self.alloc, &mut editor.seat, self.gate)?;
        Ok(Answer::Contoured(contour, shown))
    }

    fn settle(&self, editor: &mut Editor) -> Result<Answer, NoMemory>
        requires own { editor.old.seat.table ≡ self.now.lock.now }
        requires unfinished { HasNotFinished editor.old.seat.mine }
        requires knows { Knows editor.old }
        ensures { MeetsUnlessMemory editor.old (asks commands.Settle) result editor.new }
    {
        runs_show_right();
        let look = self
            .lock
            .settle(self.rt, self.alloc, &mut editor.seat, self.gate)?;
        Ok(Answer::Settled(look))
    }

    fn look(&self, editor: &mut Editor) -> Result<Answer, NoMemory>
        requires own { editor.old.seat.table ≡ self.now.lock.now }
        requires knows { Knows editor.old }
        ensures { MeetsUnlessMemory editor.old (asks commands.Look) result editor.new }
    {
        runs_show_right();
        let look = self
            .lock
            .look_as_editor(self.rt, self.alloc, &mut editor.seat)?;
        Ok(Answer::Looked(look))
    }

    fn execute(&self, editor: &mut Editor, command: Command) -> Result<Answer, NoMemory>
        requires own { editor.old.seat.table ≡ self.now.lock.now }
        requires unfinished { HasNotFinished editor.old.seat.mine }
        requires knows { Knows editor.old }
        ensures { MeetsUnlessMemory editor.old (asks command) result editor.new }
    {
        match command {
            Command::Edit(edit) => self.edit(editor, edit),
            Command::Undo(version) => self.undo(editor, version),
            Command::Contour(contour) => self.contours(editor, contour),
            Command::Settle => self.settle(editor),
            Command::Look => self.look(editor),
            // The others make edits together.
            batch => self.batch(editor, &batch),
        }
    }

    fn read_and_execute(&self, editor: &mut Editor, line: &[u8]) -> Result<Answer, NoMemory>
        requires own { editor.old.seat.table ≡ self.now.lock.now }
        requires unfinished { HasNotFinished editor.old.seat.mine }
        requires knows { Knows editor.old }
        ensures { MeetsUnlessMemory editor.old (demand_read (command_of line.now)) result
            editor.new }
    {
        match command(self.alloc, line) {
            Ok(command) => self.execute(editor, command),
            Err(fault) if line_lacks_memory(&fault) => Err(NoMemory),
            Err(fault) => Ok(Answer::Refused(Refusal::Line(fault))),
        }
    }

    /// Does a line of at most 65,536 bytes.
    #[tactic(auto, unfolding(crate::specs::Demands::demand_of))]
    pub fn line(&self, editor: &mut Editor, line: &[u8]) -> Result<Answer, NoMemory>
        requires own { editor.old.seat.table ≡ self.now.lock.now }
        requires unfinished { HasNotFinished editor.old.seat.mine }
        requires knows { Knows editor.old }
        requires length { length line.now ≤ line_limit }
        ensures { MeetsUnlessMemory editor.old (demand_of line.now) result editor.new }
    {
        if is_blank_text(line) {
            Ok(Answer::Nothing)
        } else {
            self.read_and_execute(editor, line)
        }
    }

    /// Does a line of any length.
    pub fn any_line(&self, editor: &mut Editor, line: &[u8]) -> Result<Answer, NoMemory>
        requires own { editor.old.seat.table ≡ self.now.lock.now }
        requires unfinished { HasNotFinished editor.old.seat.mine }
        requires knows { Knows editor.old }
        ensures { MeetsUnlessMemory editor.old (demand_of line.now) result editor.new }
    {
        if line.len() > LONGEST {
            Ok(refuse_long())
        } else {
            self.line(editor, line)
        }
    }
}

/// The refusal of a line of more than 65,536 bytes, for which nothing is asked of the board.
pub fn refuse_long() -> Answer
    ensures met { (editor : EditorSaid) (line : List ℕ) → Knows editor → line_limit < length line
        → MeetsUnlessMemory {E = NoMemory} editor (demand_of line) (Ok result) editor }
    ensures few { ShowsFew result }
{
    Answer::Refused(Refusal::LongLine)
}
