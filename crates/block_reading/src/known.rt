//! Whether what jobs name is there, and whether arrays are as long as the head says.
ghost use Rattle.std.specs.Prelude.{◌≡◌, ◌==◌, sum_by, nat_lt};
ghost use Rattle.std.specs.List.{list_all};
ghost use Rattle.block_reading.specs.Answers.{Gives};
ghost use Rattle.block_reading.specs.Block.{first_unknown, jobs_known, shapes_held};
ghost use Rattle.block_reading.specs.Jobs.{is_job_known, is_member_known};

use crate::fault::{BlockFault, ReadFault};
use crate::head::Head;
use crate::job::{Job, Member};
use crate::shape::Shapes;

/// Whether some counts add up to a number.
fn is_sum(counts: &[u32], all: u32) -> bool
    ensures { result ≡ (sum_by (λ n. n) counts.now == all) }
{
    let mut left = all;
    for count in counts {
        if left < *count {
            return false;
        }
        left -= *count;
    }
    left == 0
}

/// The features, where their arrays are as long as the head says.
pub(crate) fn held_shapes(head: &Head, shapes: Shapes) -> Result<Shapes, ReadFault>
    ensures { Gives (λ s. s) result (shapes_held head.now shapes) }
{
    if !is_sum(&shapes.ring_counts, head.rings) {
        return Err(ReadFault::Refused(BlockFault::OtherRings));
    }
    if !is_sum(&shapes.point_counts, head.points) {
        return Err(ReadFault::Refused(BlockFault::OtherPoints));
    }
    Ok(shapes)
}

/// Whether features and layers of so many are there.
fn are_members_known(members: &[Member], features: u32, layers: u32) -> bool
    ensures { result ≡ list_all (λ m. is_member_known features layers m) members.now }
{
    for member in members {
        if member.feature >= features || member.layer >= layers {
            return false;
        }
    }
    true
}

/// Whether a job names features and layers that are there.
fn is_known(job: &Job, features: u32, layers: u32) -> bool
    ensures { result ≡ is_job_known features layers job.now }
{
    match job {
        Job::Pair(a, b) => *a < features && *b < features,
        Job::Cells(_, members) => are_members_known(members.members(), features, layers),
        Job::Locate(feature, _) => *feature < features,
    }
}

/// The number of the first job that does not; how many jobs there are where all do.
fn first_absent(head: &Head, jobs: &[Job]) -> usize
    ensures { result ≡ first_unknown head.now 0 jobs.now }
{
    for at in 0..jobs.len() {
        if !is_known(&jobs[at], head.features, head.layers) {
            return at;
        }
    }
    jobs.len()
}

/// The jobs, where they name what is there.
pub(crate) fn known_jobs(head: &Head, jobs: Vec<Job>) -> Result<Vec<Job>, ReadFault>
    ensures { Gives (λ js. js.items) result (jobs_known head.now jobs.items) }
{
    let at = first_absent(head, &jobs);
    if at != jobs.len() {
        return Err(ReadFault::Refused(BlockFault::Absent(at)));
    }
    Ok(jobs)
}
