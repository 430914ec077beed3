//! Jobs that are taken from a board, and the answers that solving them gives.
ghost use Rattle.std.specs.Prelude.{◌≡◌, ◌+◌, ◌<◌, true, List, [], length, slice_get, Some, IfOk, IfErr, IfSome, OnOk};
ghost use Rattle.path_calc.specs.Bundles.{Bundle as BundleSeen};
ghost use Rattle.path_cache.specs.Refreshed.{CanRefresh};
ghost use Rattle.path_cache.specs.Renewals.{Gives, with_each};
ghost use Rattle.path_cache.specs.Standing.{AreOfEach, StandAsSources};
ghost use Rattle.touch_test.specs.Envelopes.{TellsOf};
ghost use Rattle.map_board.specs.inner.Calculated.{IsCalculated};
ghost use Rattle.map_board.specs.inner.Held.{AreWithin, IsJobOf};
ghost use Rattle.map_board.specs.Jobs.{Answers};

pub(crate) mod name_copies;
pub(crate) mod receiver_copies;

use crate::jobs::receiver_copies::ReceiverCopy;
use crate::rows::Cache;
use crate::scenes::PreparedScene;
use path_cache::{Bundle, Renewal, Renewed, Replaced, RowSums, Steps, WithSums, renew};
use path_calc::Levels;
use scene_book::Scene;
use scene_geom::Pt;
use scene_parts::NoMemory;
use std::alloc::Global;
use std::marker::Model;
use std::snapshot::Snapshot;
use std::sync::ledger::Ledger;
use touch_test::Envelope;

/// What is to be calculated of a receiver: its bundles in the scene of a version, of those that its row had kept and of
/// which some are marked. Contracts see it as a record of the version, the receiver, the scene, the kept bundles with their
/// marks, and the number of bundles that have to be calculated.
///
/// It has all of its scene but the receivers, and shares it. Where a list has as many owners as it can have, a job has none of
/// the scene, and can't be solved.
#[derive(Drop)]
pub struct Job {
    pub(crate) version: u64,
    pub(crate) place: u32,
    pub(crate) receiver: ReceiverCopy,
    pub(crate) scene: Snapshot<Scene>,
    pub(crate) hold: Option<PreparedScene>,
    pub(crate) kept: Vec<Bundle>,
    pub(crate) marks: Vec<bool>,
    pub(crate) sums: RowSums,
    pub(crate) envelope: Envelope,
    pub(crate) stand: bool,
    ghost tells: { TellsOf envelope kept.items },
}

impl Model for Job {
    ghost use Rattle.map_board.specs.Views.{Job as JobSeen};

    ghost Value = { JobSeen };

    ghost use Rattle.map_board.specs.inner.Held.{IsJob, IsAtHand};
    ghost use Rattle.map_board.specs.Seen.{job_seen};

    ghost view = { job_seen };

    ghost invariant = { λ j. IsJob j.place (job_seen j) × IsAtHand j.hold j.sums j.stand (job_seen j) };
}

/// What was calculated for a job. Contracts see it as a record of the version, the receiver, the scene, the bundles and
/// their levels.
#[derive(Drop)]
pub struct Answer {
    pub(crate) version: u64,
    pub(crate) receiver: ReceiverCopy,
    pub(crate) scene: Snapshot<Scene>,
    pub(crate) bundles: Vec<Bundle>,
    pub(crate) marks: Vec<bool>,
    pub(crate) levels: Levels,
    pub(crate) sums: RowSums,
    pub(crate) envelope: Envelope,
    pub(crate) stand: bool,
    ghost tells: { TellsOf envelope bundles.items },
}

impl Model for Answer {
    ghost use Rattle.map_board.specs.Views.{Answer as AnswerSeen};

    ghost Value = { AnswerSeen };

    ghost use Rattle.map_board.specs.inner.Held.{IsAnswer};
    ghost use Rattle.map_board.specs.Seen.{answer_seen};

    ghost view = { answer_seen };

    ghost invariant = { λ a. IsAnswer a.marks.items a.sums a.stand (answer_seen a) };
}

/// The refreshed bundles that a job asks for, as far as they are calculated before its kept ones move, a mark of each,
/// whether it is known that they are of each source, in their order, and the place of their receiver.
struct Calculation {
    renewed: Renewed,
    marks: Vec<bool>,
    stand: bool,
    to: Pt,
}

impl Job {
    /// The job for the receiver at a place in a scene, of the bundles that its row kept, where it may be known that they are of
    /// each source of the scene, in their order.
    pub(crate) fn of(
        version: u64,
        place: u32,
        hold: &PreparedScene,
        cache: Cache,
        stand: bool,
    ) -> Job
        requires place { place < length hold.now.scene.receivers }
        requires kept { CanRefresh cache.bundles.items cache.marks.items }
        requires within { (r : _) → slice_get hold.now.scene.receivers place ≡ Some r
            → AreWithin hold.now.scene r cache.bundles.items cache.marks.items }
        requires stand { stand ≡ true → AreOfEach hold.now.scene.sources cache.bundles.items }
        ensures { IsJobOf version place hold.now.scene cache.bundles.items cache.marks.items result }
    {
        Job {
            version,
            place,
            receiver: ReceiverCopy::of(&hold.scene.receivers()[place as usize]),
            scene: Snapshot::of(&hold.scene),
            hold: hold.without_receivers().ok(),
            kept: cache.bundles,
            marks: cache.marks,
            sums: cache.sums,
            envelope: cache.envelope,
            stand,
        }
    }

    /// The version of the job's scene.
    pub fn version(&self) -> u64
        ensures { result ≡ self.now.version }
    {
        self.version
    }

    /// The receiver's place in the job's scene.
    pub fn place(&self) -> u32
        ensures { slice_get self.now.scene.receivers result ≡ Some self.now.receiver }
    {
        self.place
    }

    /// The answer to the job: its kept bundles refreshed, and their levels. One step is counted for each bundle that has to
    /// be calculated. Where there is no memory the job comes back as it was.
    pub fn solve<L: Ledger>(self, alloc: Global, steps: &mut Steps<L>) -> Result<Answer, Job>
        ensures answer { IfOk result (λ answer. Answers self answer) }
        ensures steps { OnOk result (steps.new ≡ steps.old + self.due) }
        ensures back { IfErr result (λ job. job ≡ self) }
    {
        match self.calculate(alloc, steps) {
            Ok(calculation) => Ok(self.answered_by(calculation)),
            Err(NoMemory) => Err(self),
        }
    }

    /// Does all that may fail, while the job keeps what it has.
    fn calculate<L: Ledger>(
        &self,
        alloc: Global,
        steps: &mut Steps<L>,
    ) -> Result<Calculation, NoMemory>
        ensures made { IfOk result (λ made. IsCalculated self.now made) }
        ensures steps { OnOk result (steps.new ≡ steps.old + self.now.due) }
    {
        let Some(hold) = &self.hold else {
            return Err(NoMemory);
        };
        let receiver = self.receiver.to_receiver(alloc)?;
        let facing = hold.indexed().facing_to(alloc, receiver.at)?;
        let scene = hold.indexed_beside(&facing);
        let renewal = Renewal::of(&scene, &hold.prepared, &receiver, &self.kept, &self.marks);
        let renewed = renew(alloc, &renewal, &self.sums, self.stands_within(hold), steps)?;
        let marks = vec![in alloc; false; renewed.len()]?;
        let stand = renewed.len() == hold.scene.sources().len();
        Ok(Calculation {
            renewed,
            marks,
            stand,
            to: receiver.at,
        })
    }

    /// Whether the kept bundles are known to be of each source of the scene, in their order, and each source surely reaches the
    /// receiver.
    fn stands_within(&self, hold: &PreparedScene) -> bool
        requires { hold.now.scene ≡ record self.now.scene { receivers = [] } }
        ensures { result ≡ true → StandAsSources hold.now.scene self.now.receiver self.now.kept }
    {
        self.stand && hold.reaches(self.receiver.at)
    }

    /// The name of its receiver.
    pub(crate) fn name(&self) -> &[u8]
        ensures { result.now ≡ self.now.receiver.name }
    {
        self.receiver.name()
    }

    /// The answer to the job, into which its kept bundles move where they stand.
    fn answered_by(self, calculation: Calculation) -> Answer
        requires { IsCalculated self calculation }
        ensures { Answers self result }
    {
        let Job {
            version,
            place: _,
            receiver,
            scene,
            hold,
            kept,
            marks: _,
            sums: _,
            envelope,
            stand: _,
        } = self;
        let Calculation {
            renewed,
            marks,
            stand,
            to,
        } = calculation;
        drop(hold);
        let widened = widened(envelope, &renewed);
        let WithSums { bundles, sums } = renewed.with_kept(kept);
        let envelope = match widened {
            Some(envelope) => envelope,
            None => Envelope::of(to, &bundles),
        };
        Answer {
            version,
            receiver,
            scene,
            levels: sums.levels(),
            bundles,
            marks,
            sums,
            envelope,
            stand,
        }
    }
}

impl Answer {
    /// The name of its receiver.
    pub(crate) fn name(&self) -> &[u8]
        ensures { result.now ≡ self.now.receiver.name }
    {
        self.receiver.name()
    }
}

/// The box round a row's paths with those of its new bundles in it besides, where each other bundle stays in its place. So the
/// box of a row of which few bundles are new costs what these cost; it doesn't shrink.
fn widened(envelope: Envelope, renewed: &Renewed) -> Option<Envelope>
    ensures { (kept bundles : List BundleSeen) → Gives renewed.now kept bundles → TellsOf envelope kept
        → IfSome result (λ wide. TellsOf wide bundles) }
{
    match renewed.replaced() {
        Some(news) => Some(with_paths(envelope, news)),
        None => None,
    }
}

/// A box with the paths of new bundles in it besides.
fn with_paths(envelope: Envelope, news: &[Replaced]) -> Envelope
    ensures { (kept : List BundleSeen) → TellsOf envelope kept
        → TellsOf result (with_each news.now kept) }
{
    let mut wide = envelope;
    for new in news {
        wide = wide.with_path(&new.bundle);
    }
    wide
}
