//! Bytes written over a file in memory.
ghost use Rattle.std.specs.Prelude.{◌≡◌, ◌+◌, ◌-◌, ◌++◌, ◌≤◌, replicate, length, OnOk, OnErr};
ghost use Rattle.disk_model.specs.Disk.{Holds, Torn};
ghost use Rattle.disk_model.specs.Replay.{over};

use std::alloc::AllocError;

/// Puts bytes in the place of others.
fn put(file: &mut Vec<u8>, at: usize, bytes: &[u8])
    requires { at + length bytes.now ≤ length file.old.items }
    ensures holds { Holds file.new.items at bytes.now }
    ensures others { Torn at (length bytes.now) file.old.items file.new.items }
{
    file[at..at + bytes.len()].copy_from_slice(bytes);
}

/// Makes a file at least so long, by zeros at its end.
fn grow(file: &mut Vec<u8>, end: usize) -> Result<(), AllocError>
    ensures ok { OnOk result (file.new.items ≡ file.old.items ++ replicate (end - length file.old.items) 0) }
    ensures err { OnErr result (file.new.items ≡ file.old.items) }
{
    if end > file.len() {
        file.resize(end, 0)?;
    }
    Ok(())
}

/// Writes bytes over a file, and zeros into a gap after its end. A refused growth leaves the file.
pub fn overwrite(file: &mut Vec<u8>, at: usize, bytes: &[u8]) -> Result<(), AllocError>
    ensures ok { OnOk result (file.new.items ≡ over file.old.items at bytes.now) }
    ensures err { OnErr result (file.new.items ≡ file.old.items) }
{
    let end = at.checked_add(bytes.len()).ok_or(AllocError)?;
    grow(file, end)?;
    put(file, at, bytes);
    Ok(())
}
