//! Jobs that are given back to a board.
ghost use Rattle.std.specs.Prelude.{◌≡◌, None, IfSome};
ghost use Rattle.path_cache.specs.Standing.{AreOfEach};
ghost use Rattle.map_board.specs.Jobs.{IsFit, IsOutFor, MayReturn};
ghost use Rattle.map_board.specs.inner.Later.{marks_after_all};
ghost use Rattle.map_board.specs.Machine.{given_back, with_out};
ghost use Rattle.map_board.specs.Rows.{with_row};

use crate::edits::log::LogEntry;
use crate::jobs::Job;
use crate::returns::back::Landing;
use crate::returns::later::mark_by_all;
use crate::rows::standing::version_if;
use crate::rows::{Back, Cache};
use crate::state::Board;
use scene_parts::Receiver;

impl Board {
    /// Takes a job back: its row is needy again, with the bundles that the job had and the marks of all edits since, unless
    /// an edit after the job's version named the receiver. No memory is taken.
    pub fn give_back(&mut self, job: Job)
        requires may { MayReturn self.old.journal self.old.rows job.version job.receiver }
        requires fit { IsFit self.old.journal self.old.rows job }
        ensures { self.new ≡ given_back job self.old }
    {
        self.counts.back = self.counts.back.saturating_add(1);
        match self.naming_since(job.version, job.name()) {
            Some(_) => {}
            None => self.free(job),
        }
    }

    /// Puts a job's bundles back into the row of its receiver.
    fn free(&mut self, job: Job)
        requires out { IsOutFor self.old.rows job.version job.receiver }
        requires fit { IsFit self.old.journal self.old.rows job }
        ensures { self.new ≡ record self.old {
          rows = with_row job.receiver.name (with_out None) self.old.rows;
        } }
    {
        let Landing {
            place,
            receiver,
            later,
        } = self.landing_of(job.version, job.name());
        let back = job.returned(later, receiver);
        self.land(place, back);
    }
}

impl Job {
    /// The bundles that were kept for it with the marks of these edits.
    fn returned(self, later: &[LogEntry], receiver: &Receiver) -> Back
        requires { receiver.now ≡ self.receiver }
        ensures levels { result.kept ≡ None }
        ensures bundles { result.cache.bundles.items ≡ self.kept }
        ensures marks { result.cache.marks.items
            ≡ marks_after_all later.now self.receiver self.kept self.marks }
        ensures order { IfSome result.cache.order (λ version. (version ≡ self.version)
            × AreOfEach self.scene.sources self.kept) }
    {
        // what it had of its scene is let go whole, in one call
        drop(self.hold);
        let mut cache = Cache {
            bundles: self.kept,
            marks: self.marks,
            sums: self.sums,
            envelope: self.envelope,
            order: version_if(self.stand, self.version),
        };
        mark_by_all(&mut cache, later, receiver);
        Back { kept: None, cache }
    }
}
