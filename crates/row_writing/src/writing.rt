//! Rows written as they are made.
ghost use Rattle.std.specs.Prelude.{◌≡◌, ℕ, List, IfErr, OnOk};
ghost use Rattle.std.specs.Io.KnownBytes.{Appends};
ghost use Rattle.row_writing.specs.Rows.{AreWritten, AreWrittenOfSome};
ghost use Rattle.row_writing.specs.declared.fault.RowFault.TheVariants as faults;

use crate::answering::Answering;
use crate::fault::RowFault;
use std::alloc::Global;
use std::io::Write;

/// Writes the row of a job. Where there is none, nothing is written.
fn write_row<J, A: Answering<J>, W: Write>(
    alloc: Global,
    answering: &A,
    job: &J,
    to: &mut W,
) -> Result<(), RowFault>
    ensures ok { OnOk result
        ((row : List ℕ) × A.answers answering.now job.now row × Appends (W.contents to.old) (W.contents to.new) row) }
    ensures memory { IfErr result (λ fault. fault ≡ faults.OutOfMemory → to.new ≡ to.old) }
{
    let Ok(row) = answering.row(alloc, job) else {
        return Err(RowFault::OutOfMemory);
    };
    match to.write_all(&row) {
        Ok(()) => Ok(()),
        Err(_) => Err(RowFault::Write),
    }
}

/// Writes the rows of jobs in order. Where there is no memory for one, those before it are written, and not a byte more.
pub fn write_rows<J, A: Answering<J>, W: Write>(
    alloc: Global,
    answering: &A,
    jobs: &[J],
    to: &mut W,
) -> Result<(), RowFault>
    ensures ok { OnOk result (AreWritten (A.answers answering.now) jobs.now (W.contents to.old) (W.contents to.new)) }
    ensures memory { IfErr result (λ fault. fault ≡ faults.OutOfMemory
        → AreWrittenOfSome (A.answers answering.now) jobs.now (W.contents to.old) (W.contents to.new)) }
{
    for job in jobs {
        write_row(alloc, answering, job, to)?;
    }
    Ok(())
}
