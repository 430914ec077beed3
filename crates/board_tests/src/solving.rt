//! A job solved, with steps that nobody counts.
ghost use Rattle.std.specs.Prelude.{◌≡◌, ◌<◌, MatchResult};
ghost use Rattle.map_board.specs.Jobs.{Answers};

use map_board::{Answer, Job};
use path_cache::Steps;
use std::alloc::Global;
use std::marker::Brand;
use std::sync::ledger::{Blank, Ledger};

/// The answer to a job, or the job as it was where there is no memory.
pub(crate) fn solve(alloc: Global, job: Job) -> Result<Answer, Job>
    ensures { MatchResult result (λ answer. Answers job answer) (λ back. back ≡ job) }
{
    solve_counted::<Brand>(alloc, job, Blank::new(1))
}

fn solve_counted<L: Ledger>(alloc: Global, job: Job, blank: Blank) -> Result<Answer, Job>
    requires name { blank.name ≡ L.name }
    requires parts { blank.parts ≡ L.parts }
    requires some { 0 < blank.parts }
    ensures { MatchResult result (λ answer. Answers job answer) (λ back. back ≡ job) }
{
    let mut steps = Steps::<L>::of(blank);
    job.solve(alloc, &mut steps)
}
