//! Answers that land on a board.
ghost use Rattle.std.specs.Prelude.{◌≡◌, ◌+◌, ◌<◌, ◌^◌, Some, IfSome, length};
ghost use Rattle.path_cache.specs.Standing.{AreOfEach};
ghost use Rattle.map_board.specs.inner.Held.{no_marks};
ghost use Rattle.map_board.specs.Jobs.{IsOutFor, IsRight, MayReturn};
ghost use Rattle.map_board.specs.inner.Later.{first_entry_touching, marks_after_all};
ghost use Rattle.map_board.specs.Machine.{Lands, with_kept};
ghost use Rattle.map_board.specs.Rows.{with_row};

use crate::answers::Landed;
use crate::edits::log::LogEntry;
use crate::jobs::Answer;
use crate::returns::back::Landing;
use crate::returns::later::{first_touching, mark_by_all};
use crate::rows::standing::version_if;
use crate::rows::{Back, Cache, KeptLevels};
use crate::state::Board;
use scene_parts::Receiver;

impl Board {
    /// Keeps an answer, however many edits came after its version; or it is gone, where one of these named its receiver.
    /// What the row shows of it is stale by the first of them that touches the receiver. No memory is taken.
    pub fn offer(&mut self, answer: Answer) -> Landed
        requires may { MayReturn self.old.journal self.old.rows answer.version answer.receiver }
        requires right { IsRight self.old.journal answer }
        ensures { Lands self.old answer result self.new }
    {
        match self.naming_since(answer.version, answer.name()) {
            Some(by) => {
                self.counts.gone = self.counts.gone.saturating_add(1);
                Landed::Gone { by }
            }
            None => {
                self.counts.kept = self.counts.kept.saturating_add(1);
                self.keep(answer);
                Landed::Kept
            }
        }
    }

    /// Keeps an answer in the row of its receiver.
    fn keep(&mut self, answer: Answer)
        requires out { IsOutFor self.old.rows answer.version answer.receiver }
        requires right { IsRight self.old.journal answer }
        ensures { self.new ≡ record self.old {
          rows = with_row answer.receiver.name
              (with_kept (record { version = answer.version; levels = answer.levels })) self.old.rows;
        } }
    {
        let Landing {
            place,
            receiver,
            later,
        } = self.landing_of(answer.version, answer.name());
        let back = answer.landed(later, receiver);
        self.land(place, back);
    }
}

impl Answer {
    /// What a row keeps of it where these edits came after its version: the levels with the first edit that touches the
    /// receiver, and the bundles with the edits' marks.
    fn landed(self, later: &[LogEntry], receiver: &Receiver) -> Back
        requires few { self.version + length later.now < 2 ^ 64 }
        requires receiver { receiver.now ≡ self.receiver }
        ensures kept { result.kept ≡ Some (record {
          version = self.version;
          by = first_entry_touching self.receiver self.bundles self.version later.now;
          levels = self.levels;
        }) }
        ensures bundles { result.cache.bundles.items ≡ self.bundles }
        ensures marks { result.cache.marks.items
            ≡ marks_after_all later.now self.receiver self.bundles (no_marks self.bundles) }
        ensures order { IfSome result.cache.order (λ version. (version ≡ self.version)
            × AreOfEach self.scene.sources self.bundles) }
    {
        let Answer {
            version,
            receiver: _,
            scene: _,
            bundles,
            marks,
            levels,
            sums,
            envelope,
            stand,
        } = self;
        let by = first_touching(later, version, bundles.as_slice(), receiver);
        let mut cache = Cache {
            bundles,
            marks,
            sums,
            envelope,
            order: version_if(stand, version),
        };
        mark_by_all(&mut cache, later, receiver);
        let kept = KeptLevels {
            version,
            by,
            levels,
        };
        Back {
            kept: Some(kept),
            cache,
        }
    }
}
