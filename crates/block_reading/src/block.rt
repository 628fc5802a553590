//! Blocks.
ghost use Rattle.std.specs.Prelude.{◌≡◌, Ok};
ghost use Rattle.block_reading.specs.Answers.{Gives};
ghost use Rattle.block_reading.specs.Block.{block_of, tail};

use crate::fault::{BlockFault, ReadFault};
use crate::head::Head;
use crate::heading::head_at;
use crate::job::Job;
use crate::jobs_in::all_jobs_in;
use crate::known::{held_shapes, known_jobs};
use crate::numbers::{count_at, taken_at};
use crate::shape::Shapes;
use crate::shapes_in::shapes_at;
use std::alloc::Global;
use std::marker::Model;

/// What a block ends with: OVFE.
const END: u32 = 1162237519;

/// Features, jobs over them, and the expression of the jobs.
#[derive(Debug, Drop)]
pub struct Block {
    head: Head,
    shapes: Shapes,
    jobs: Vec<Job>,
    expression: Vec<u8>,
}

impl Model for Block {
    ghost use Rattle.block_reading.specs.Block as terms;

    ghost Value = { terms.Block };

    ghost view = { λ b. record { head = b.head; shapes = b.shapes; jobs = b.jobs.items; expression = b.expression.items } };
}

impl Block {
    /// The head.
    pub fn head(&self) -> &Head
        ensures { result.now ≡ self.now.head }
    {
        &self.head
    }

    /// The features.
    pub fn shapes(&self) -> &Shapes
        ensures { result.now ≡ self.now.shapes }
    {
        &self.shapes
    }

    /// The jobs, in the order of the bytes.
    pub fn jobs(&self) -> &[Job]
        ensures { result.now ≡ self.now.jobs }
    {
        &self.jobs
    }

    /// The text of the expression.
    pub fn expression(&self) -> &[u8]
        ensures { result.now ≡ self.now.expression }
    {
        &self.expression
    }
}

/// The bytes of the jobs and those of the expression, where an end mark closes the block.
fn tail_at<'a>(head: &Head, bytes: &'a [u8]) -> Result<(&'a [u8], &'a [u8]), ReadFault>
    ensures { Gives (λ x. (x.0.now, x.1.now)) result (tail head.now bytes.now) }
{
    let (jobs, rest) = taken_at(4 * u64::from(head.job_words), bytes)?;
    let (expression, rest) = taken_at(u64::from(head.expression), rest)?;
    let (mark, _) = count_at(0, rest)?;
    if mark != END {
        return Err(ReadFault::Refused(BlockFault::NoEnd));
    }
    Ok((jobs, expression))
}

/// Bytes in a list of their own.
fn owned(alloc: Global, bytes: &[u8]) -> Result<Vec<u8>, ReadFault>
    ensures { Gives (λ own. own.items) result (Ok bytes.now) }
{
    Ok(bytes.to_vec(alloc)?)
}

/// The block that some bytes are.
pub fn read_block(alloc: Global, bytes: &[u8]) -> Result<Block, ReadFault>
    ensures block { Gives (λ b. b) result (block_of bytes.now) }
{
    let (head, rest) = head_at(bytes)?;
    let (shapes, rest) = shapes_at(alloc, &head, rest)?;
    let (jobs, words) = tail_at(&head, rest)?;
    let shapes = held_shapes(&head, shapes)?;
    let jobs = all_jobs_in(alloc, &head, jobs)?;
    let jobs = known_jobs(&head, jobs)?;
    let expression = owned(alloc, words)?;
    Ok(Block {
        head,
        shapes,
        jobs,
        expression,
    })
}
