//! The jobs of a block, answered in order.
ghost use Rattle.std.specs.Prelude.{◌≡◌, ◌≤◌, ◌-◌, [], false, map, IfOk, IfErr, IsErr, IsOk};
ghost use Rattle.block_reading.specs.Fault.{code_of as refusal_of, job_of};
ghost use Rattle.feature_jobs.specs.Answers.{AreRows, AreRowsOf, IsRow, IsPairRow, IsCellsRow, near_of, IsAnswered, IsReply, IsSpelled, has_rings, points_reply, job_number};
ghost use Rattle.feature_jobs.specs.Findings.{IsFoundOf};
ghost use Rattle.feature_jobs.specs.Reply.{refused, no_job, row_size};
ghost use Rattle.feature_jobs.specs.Fault.{code_of};
ghost use Rattle.feature_jobs.specs.Pairs.{IsPair};
ghost use Rattle.feature_jobs.specs.Rows.{IsFaultRow};
ghost use Rattle.feature_jobs.specs.Shared.{AreShared, asked_of};
ghost use Rattle.feature_jobs.specs.declared.fault.JobFault.TheVariants as faults;

use crate::bytes::small;
use crate::cells::cells;
use crate::dealing::{Dealt, deal_out};
use crate::fault::JobFault;
use crate::ground::{Ground, Shared, ground_of};
use crate::known::known_at;
use crate::pair::{PairFound, pair};
use crate::points::point_rows;
use crate::reply::{Reply, cells_row, fault_row, pair_row, row_size};
use crate::rings::form_in;
use block_reading::{Block, BlockFault, Core, Head, Job, Member};
use boundary_outlines::Outline;
use feature_windows::{Found, Near};
use row_writing::{Answering, write_rows};
use std::alloc::{AllocError, Global};

/// The answer to a pair.
fn pair_of(alloc: Global, ground: &Ground, a: usize, b: usize) -> Result<PairFound, JobFault>
    ensures { IfOk result
        (λ one. AreShared ground.now.features ground.now.shared → IsPair ground.now.features a b one) }
{
    let Shared::Pairs(known, steps) = &ground.shared else {
        return Err(JobFault::BadExpression);
    };
    let first = known_at(known, a)?;
    let second = known_at(known, b)?;
    let near = [
        Near {
            feature: a,
            layer: 0,
        },
        Near {
            feature: b,
            layer: 1,
        },
    ];
    let one = pair(
        alloc,
        &ground.features,
        &near,
        &first,
        &second,
        steps,
        ground.limit,
        ground.outlines,
    )?;
    Ok(one)
}

/// The answer to a core.
fn cells_of(
    alloc: Global,
    ground: &Ground,
    core: &Core,
    members: &[Member],
) -> Result<(Found, Option<Outline>), JobFault>
    ensures { IfOk result (λ both. IsFoundOf ground.now.features (map near_of members.now)
        ((asked_of ground.now.shared).bases - 1) core.now (asked_of ground.now.shared) both.0) }
{
    let Shared::Cells(steps) = &ground.shared else {
        return Err(JobFault::BadExpression);
    };
    cells(
        alloc,
        &ground.features,
        steps,
        core,
        members,
        ground.limit,
        ground.outlines,
    )
}

/// A row of a fault, but for want of memory.
fn row_of_fault(alloc: Global, fault: JobFault, kind: u32) -> Result<Vec<u8>, AllocError>
    ensures { IfOk result (λ row. IsFaultRow (row_size kind) row.items) }
{
    match fault {
        JobFault::OutOfMemory => Err(AllocError),
        other => fault_row(alloc, other.code(), row_size(kind)),
    }
}

/// The row of a pair.
fn row_of_pair(alloc: Global, ground: &Ground, a: u32, b: u32) -> Result<Vec<u8>, AllocError>
    ensures { IfOk result (λ row. AreShared ground.now.features ground.now.shared
        → IsPairRow ground.now.features a b row.items) }
{
    match pair_of(alloc, ground, a as usize, b as usize) {
        Ok(one) => pair_row(alloc, &one, &form_in(&one.core, ground.fractions)),
        Err(fault) => row_of_fault(alloc, fault, 0),
    }
}

/// The row of a core.
fn row_of_cells(
    alloc: Global,
    ground: &Ground,
    core: &Core,
    members: &[Member],
) -> Result<Vec<u8>, AllocError>
    ensures { IfOk result (λ row. IsCellsRow ground.now.features (asked_of ground.now.shared)
        core.now members.now row.items) }
{
    match cells_of(alloc, ground, core, members) {
        Ok((found, outline)) => cells_row(
            alloc,
            &found,
            &outline,
            &form_in(core, ground.fractions),
        ),
        Err(fault) => row_of_fault(alloc, fault, 1),
    }
}

impl Answering<Job> for Ground {
    ghost answers = { λ ground job row. AreShared ground.features ground.shared
        → IsRow ground.features (asked_of ground.shared) job row };

    fn row(&self, alloc: Global, job: &Job) -> Result<Vec<u8>, AllocError> {
        match job {
            Job::Pair(a, b) => row_of_pair(alloc, self, *a, *b),
            Job::Cells(core, members) => row_of_cells(alloc, self, core, members.members()),
            Job::Locate(feature, queries) => point_rows(
                alloc,
                &self.features,
                *feature as usize,
                queries.points(),
            ),
        }
    }
}

/// The rows of jobs, each with its rings and corners, in order.
fn records_of(alloc: Global, ground: &Ground, jobs: &[Job]) -> Result<Vec<u8>, AllocError>
    ensures { IfOk result
        (λ records. AreShared ground.now.features ground.now.shared
        → AreRows ground.now.features (asked_of ground.now.shared) jobs.now records.items) }
{
    let mut records = Vec::new(alloc);
    match write_rows(alloc, ground, jobs, &mut records) {
        Ok(()) => Ok(records),
        Err(_) => Err(AllocError),
    }
}

/// Whether rows have rings.
fn has_rings(head: &Head) -> bool
    ensures { result ≡ has_rings head.now }
{
    head.flags % 2 == 1 && head.kind < 2
}

/// The records of a block as rows, rings and corners.
fn parts_of(alloc: Global, block: &Block, records: Vec<u8>) -> Result<Dealt, AllocError>
    ensures rows { IfOk result (λ parts. has_rings block.now.head ≡ false → parts.rows ≡ records) }
    ensures rings { IfOk result (λ parts. has_rings block.now.head ≡ false → parts.rings.items ≡ []) }
    ensures corners { IfOk result (λ parts. has_rings block.now.head ≡ false → parts.corners.items ≡ []) }
{
    let head = block.head();
    if has_rings(head) {
        return deal_out(alloc, &records, head.kind, head.flags, block.jobs().len());
    }
    Ok(Dealt {
        rows: records,
        rings: Vec::new(alloc),
        corners: Vec::new(alloc),
    })
}

/// The reply of these records.
fn reply_of(alloc: Global, block: &Block, records: Vec<u8>) -> Result<Reply, AllocError>
    requires { AreRowsOf block.now records.items }
    ensures { IfOk result (λ reply. IsAnswered block.now reply) }
{
    let parts = parts_of(alloc, block, records)?;
    let head = block.head();
    Ok(Reply {
        kind: head.kind,
        flags: head.flags,
        fault: 0,
        job: 0,
        rows: parts.rows,
        rings: parts.rings,
        corners: parts.corners,
    })
}

/// The rows of a block.
fn answered(alloc: Global, block: &Block) -> Result<Reply, JobFault>
    ensures answered { IfOk result (λ reply. IsAnswered block.now reply) }
    ensures points { 2 ≤ block.now.head.kind → IfErr result (λ fault. fault ≡ faults.OutOfMemory) }
{
    let ground = ground_of(alloc, block)?;
    let records = records_of(alloc, &ground, block.jobs())?;
    Ok(reply_of(alloc, block, records)?)
}

/// The reply to a block that is refused for a fault, but for want of memory.
fn refused_for(alloc: Global, fault: JobFault) -> Result<Reply, AllocError>
    ensures memory { fault ≡ faults.OutOfMemory → IsErr result }
    ensures reply { IfOk result (λ reply. reply ≡ refused (code_of fault) no_job) }
{
    match fault {
        JobFault::OutOfMemory => Err(AllocError),
        other => Ok(Reply::refused(alloc, other.code(), u32::MAX)),
    }
}

/// The reply to a block; where its expression is at fault, that it is refused.
pub fn answer(alloc: Global, block: &Block) -> Result<Reply, AllocError>
    ensures reply { IfOk result (λ reply. IsReply block.now reply) }
    // A reply to points is their spots, each against the feature of its own job.
    ensures points { IfOk result (λ reply. IsSpelled block.now → block.now.head.kind ≡ 2 → reply ≡ points_reply block.now) }
{
    match answered(alloc, block) {
        Ok(reply) => Ok(reply),
        Err(fault) => refused_for(alloc, fault),
    }
}

/// The number of a job in a reply; that of none where it has no number of 32 bits.
fn job_number(job: Option<usize>) -> u32
    ensures { result ≡ job_number job }
{
    match job {
        Some(job) => small(job),
        None => u32::MAX,
    }
}

/// The reply to a block that is refused when it is read.
pub fn refusal(alloc: Global, fault: &BlockFault) -> Reply
    ensures { result ≡ refused (refusal_of fault.now) (job_number (job_of fault.now)) }
{
    Reply::refused(alloc, u32::from(fault.code()), job_number(fault.job()))
}

/// The reply to a block that is longer than may be held.
pub fn too_long(alloc: Global) -> Reply
    ensures { result ≡ refused 83 no_job }
{
    Reply::refused(alloc, 83, u32::MAX)
}
