//! A disk in memory. It keeps a record of its calls, so that each crash can be played again.
ghost use Rattle.std.specs.Prelude.{◌≡◌, ◌⊎◌, ◌+◌, ◌∷◌, [], ◌++◌, ◌≤◌, take, length, IfOk, OnOk, OnErr, IsErr};
ghost use Rattle.disk_model.specs.Replay.{start, over, replay, MayLeave, LeftSince};
ghost use Rattle.disk_model.specs.Disk.{CountsFailure, CountsCall, Failed};

use crate::disk::Disk;
use crate::fault::DiskFault;
use crate::image::{Choice, image_of};
use crate::overwriting::overwrite;
use std::alloc::{AllocError, Global};

/// A call of a disk that was made, and did not fail.
#[derive(Debug, Drop)]
pub enum Call {
    Length,
    /// The offset, and the number of bytes.
    Read(usize, usize),
    Write(usize, Vec<u8>),
    Sync,
}

/// A file in memory with the calls that were made on it. A growth that it is refused is a failure of its device.
#[derive(Debug, Drop)]
pub struct MemDisk {
    alloc: Global,
    first: Vec<u8>,
    bytes: Vec<u8>,
    calls: Vec<Call>,
    failures: u64,
    ghost played: { bytes.items ≡ (replay (start first.items) calls.items).seen },
}

impl MemDisk {
    ghost use Rattle.disk_model.specs.MemDisk.{bytes_of, calls_of, failures_of, first_of};
    ghost use Rattle.disk_model.specs.Image.{IsChosen};

    /// A disk with these bytes, all of them stable.
    pub fn new(alloc: Global, bytes: Vec<u8>) -> Result<MemDisk, AllocError>
        ensures first { IfOk result (λ disk. first_of disk ≡ bytes.items) }
        ensures bytes { IfOk result (λ disk. bytes_of disk ≡ bytes.items) }
        ensures calls { IfOk result (λ disk. calls_of disk ≡ []) }
        ensures failures { IfOk result (λ disk. failures_of disk ≡ 0) }
    {
        Ok(MemDisk {
            alloc,
            first: bytes.to_vec(alloc)?,
            bytes,
            calls: Vec::new(alloc),
            failures: 0,
        })
    }

    /// A new disk with what a crash after the first k calls may leave, and after all of them where k is
    /// greater: one file for each choice.
    pub fn image(&self, k: usize, choice: Choice) -> Result<MemDisk, AllocError>
        ensures bytes { IfOk result
            (λ disk. IsChosen (replay (start (first_of self.now)) (take k (calls_of self.now))) choice
            (bytes_of disk)) }
        ensures left { IfOk result
            (λ disk. MayLeave (replay (start (first_of self.now)) (take k (calls_of self.now))) (bytes_of disk)) }
        ensures first { IfOk result (λ disk. first_of disk ≡ bytes_of disk) }
        ensures calls { IfOk result (λ disk. calls_of disk ≡ []) }
        ensures failures { IfOk result (λ disk. failures_of disk ≡ 0) }
    {
        let calls = self.first_calls(k);
        let bytes = image_of(self.alloc, self.first.as_slice(), calls, choice)?;
        MemDisk::new(self.alloc, bytes)
    }

    /// The first k calls, or all of them where k is greater.
    fn first_calls(&self, k: usize) -> &[Call]
        ensures { result.now ≡ take k (calls_of self.now) }
    {
        if k < self.calls.len() {
            return &self.calls[..k];
        }
        &self.calls
    }

    /// The bytes that a read gives.
    pub fn bytes(&self) -> &[u8]
        ensures { result.now ≡ bytes_of self.now }
    {
        &self.bytes
    }

    /// The calls that were made, the first of them first.
    pub fn calls(&self) -> &[Call]
        ensures { result.now ≡ calls_of self.now }
    {
        &self.calls
    }

    /// How often a growth was refused.
    pub fn failures(&self) -> u64
        ensures { result ≡ failures_of self.now }
    {
        self.failures
    }
}

/// Counts a failure of the device.
fn failed(failures: &mut u64) -> DiskFault
    ensures counts { Failed failures.old failures.new }
    ensures rises { failures.old ≤ failures.new }
    ensures by_one { failures.new ≤ failures.old + 1 }
{
    *failures = failures.saturating_add(1);
    DiskFault::Device
}

/// A refused growth as a failure of the device, which is counted.
fn count<T: Drop>(outcome: Result<T, AllocError>, failures: &mut u64) -> Result<T, DiskFault>
    ensures ok { IfOk result (λ x. outcome ≡ Ok x) }
    ensures err { IsErr result → IsErr outcome }
    ensures counts { CountsFailure result failures.old failures.new }
    ensures by_one { failures.new ≤ failures.old + 1 }
{
    match outcome {
        Ok(x) => Ok(x),
        Err(_) => Err(failed(failures)),
    }
}

/// Notes one more call. Where there is no memory for its record, that counts as a failure.
fn noted(calls: &mut Vec<Call>, failures: &mut u64, call: Call) -> Result<(), DiskFault>
    ensures ok { OnOk result (calls.new.items ≡ calls.old.items ++ call ∷ []) }
    ensures err { OnErr result (calls.new.items ≡ calls.old.items) }
    ensures either { (calls.new.items ≡ calls.old.items) ⊎ (calls.new.items ≡ calls.old.items ++ call ∷ []) }
    ensures counts { CountsFailure result failures.old failures.new }
    ensures calls { CountsCall result (length calls.old.items + failures.old) (length calls.new.items + failures.new) }
{
    if calls.push(call).is_ok() {
        return Ok(());
    }
    Err(failed(failures))
}

/// Writes over a file and notes the call, or changes neither.
fn written(
    file: &mut Vec<u8>,
    calls: &mut Vec<Call>,
    at: usize,
    bytes: &[u8],
    copy: Vec<u8>,
) -> Result<(), AllocError>
    ensures file { OnOk result (file.new.items ≡ over file.old.items at bytes.now) }
    ensures calls { OnOk result (calls.new.items ≡ calls.old.items ++ Call.Write at copy ∷ []) }
    ensures err { OnErr result ((file.new.items ≡ file.old.items) × (calls.new.items ≡ calls.old.items)) }
{
    if calls.push(Call::Write(at, copy)).is_err() {
        return Err(AllocError);
    }
    if overwrite(file, at, bytes).is_err() {
        let _ = calls.pop();
        return Err(AllocError);
    }
    Ok(())
}

impl Disk for MemDisk {
    ghost use Rattle.disk_model.specs.MemoryLaws.{now_is_since, since_now, seen_stays};

    ghost is_honest = { λ _. Unit {0} };

    ghost seen = { λ m. m.bytes.items };

    ghost may_leave = { λ m. MayLeave (replay (start m.first.items) m.calls.items) };

    ghost moment = { λ m. length m.calls.items };

    ghost left_since = { λ m. LeftSince m.first.items m.calls.items };

    ghost faults = { λ m. m.failures };

    ghost calls = { λ m. length m.calls.items + m.failures };

    ghost counts_now = { λ m t c _. now_is_since m.first.items m.calls.items t c };

    ghost only_now = { λ m c _. since_now m.first.items m.calls.items c };

    ghost seen_may_stay = { λ m _. seen_stays m.first.items m.calls.items m.bytes.items m.played };

    fn length(&mut self) -> Result<usize, DiskFault> {
        noted(&mut self.calls, &mut self.failures, Call::Length)?;
        Ok(self.bytes.len())
    }

    #[tactic(auto, unfolding(crate::specs::Disk::part))]
    fn read(&mut self, at: usize, buf: &mut [u8]) -> Result<(), DiskFault> {
        noted(
            &mut self.calls,
            &mut self.failures,
            Call::Read(at, buf.len()),
        )?;
        buf.copy_from_slice(&self.bytes[at..at + buf.len()]);
        Ok(())
    }

    fn write_at(&mut self, at: usize, bytes: &[u8]) -> Result<(), DiskFault> {
        let copy = count(bytes.to_vec(self.alloc), &mut self.failures)?;
        count(
            written(&mut self.bytes, &mut self.calls, at, bytes, copy),
            &mut self.failures,
        )?;
        Ok(())
    }

    fn sync(&mut self) -> Result<(), DiskFault> {
        noted(&mut self.calls, &mut self.failures, Call::Sync)?;
        Ok(())
    }
}
