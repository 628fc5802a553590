//! A disk in a file of the operating system, of which nothing is claimed.
ghost use Rattle.std.specs.Prelude.{[], ◌≤ℤ◌, IfOk, pos};
ghost use Rattle.std.specs.Fd.{file_raw_fd};
ghost use Rattle.file_disk.specs.Descriptor.{IsOwn};
ghost use Rattle.file_disk.specs.GuardedDisk.{IsReadAlone};

use crate::guarded_disk::{Access, GuardedDisk};
use disk_model::disk::Disk;
use disk_model::fault::DiskFault;
use std::fs::{File, OpenOptions, TryLockError};
use std::os::fd::{AsRawFd, RawFd};
use std::os::unix::fs::FileExt;
use std::rt::Files;
use std::{fs, io};

/// A plain file, which is open, and whose lock is held, as long as the disk is there. Once a write or a sync of it has
/// failed each call fails, until the file is opened anew. No other program is to have it meanwhile.
pub type FileDisk = GuardedDisk<OpenFile>;

/// An open file: each call is one of the system, of which nothing is claimed. What it does is shown by tests.
#[derive(Debug, Drop)]
pub struct OpenFile {
    file: File,
    is_read_alone: bool,
}

/// The least number of an open file that is none of a standard stream's.
const FIRST_OWN: RawFd = 3;

impl GuardedDisk<OpenFile> {
    /// The file at a path. Where it is absent it is made if `make` says so, and else that is an error, as is a folder,
    /// a device and whatever the system refuses. Of a link, also of one that leads to no file yet, it is the file that
    /// the link leads to. No byte of a file that is there is changed or cut off. No other program has it until it is
    /// closed: that another has it is an error. The error's kind is `OutOfMemory` where memory was refused.
    pub fn at<R: Files<File = File> + AllocGlobal>(
        rt: &R,
        path: &str,
        make: bool,
    ) -> io::Result<FileDisk>
        // The file has no standard stream's number.
        ensures own { IfOk result IsOwn }
    {
        let file = OpenFile {
            file: opened(rt, path, make)?,
            is_read_alone: false,
        };
        Ok(GuardedDisk::over(file, Access::Whole))
    }

    /// The file at a path, to be read alone: it may be one that cannot be written. Others may read it meanwhile, and no
    /// program has it to write; that one has it is an error.
    pub fn reading<R: Files<File = File>>(rt: &R, path: &str) -> io::Result<FileDisk>
        ensures own { IfOk result IsOwn }
        ensures alone { IfOk result IsReadAlone }
    {
        let file = OpenFile {
            file: opened_to_read(rt, path)?,
            is_read_alone: true,
        };
        Ok(GuardedDisk::over(file, Access::Reading))
    }
}

/// The plain file at a path. One that may have been made is entered in its folder for good.
fn opened<R: Files<File = File> + AllocGlobal>(rt: &R, path: &str, make: bool) -> io::Result<File>
    ensures { IfOk result (λ file. pos 3 ≤ℤ file_raw_fd file) }
{
    let mut how = OpenOptions::new();
    how.read(true).write(true).create(make);
    let file = how.open(rt, path)?;
    expect_own(&file)?;
    expect_plain(file.metadata()?.is_file())?;
    held(file.try_lock())?;
    if make {
        folder_of(rt, path)?.sync_all()?;
    }
    Ok(file)
}

/// The plain file at a path, to be read, its lock shared with other readers and held against writers. It is looked at
/// before it is opened as well, since the opening of a pipe would wait for who writes to it.
fn opened_to_read<R: Files<File = File>>(rt: &R, path: &str) -> io::Result<File>
    ensures { IfOk result (λ file. pos 3 ≤ℤ file_raw_fd file) }
{
    expect_plain(fs::metadata(rt, path)?.is_file())?;
    let file = File::open(rt, path)?;
    expect_own(&file)?;
    expect_plain(file.metadata()?.is_file())?;
    held(file.try_lock_shared())?;
    Ok(file)
}

/// Of a file with a standard stream's number nothing is kept: what is printed there would be written over it.
fn expect_own(file: &File) -> io::Result<()>
    ensures { IfOk result (λ _. pos 3 ≤ℤ file_raw_fd file.now) }
{
    if file.as_raw_fd() >= FIRST_OWN {
        Ok(())
    } else {
        Err(io::Error::new(
            io::ErrorKind::InvalidInput,
            "it has the number of a standard stream",
        ))
    }
}

/// Of a folder, a device or a pipe nothing is kept.
fn expect_plain(is_file: bool) -> io::Result<()> {
    if is_file {
        Ok(())
    } else {
        Err(io::Error::new(io::ErrorKind::InvalidInput, "not a plain file"))
    }
}

/// What the system answered to a lock on a file, which lasts until the file is closed: that another program holds one
/// beside which it cannot be is an error. Where the system has no locks on the file, nobody is kept out.
fn held(answer: Result<(), TryLockError>) -> io::Result<()> {
    match answer {
        Ok(()) => Ok(()),
        Err(TryLockError::WouldBlock) => Err(io::Error::new(
            io::ErrorKind::WouldBlock,
            "it is in use",
        )),
        Err(TryLockError::Error(error)) if has_no_locks(&error) => Ok(()),
        Err(TryLockError::Error(error)) => Err(error),
    }
}

/// What the system answers where a file system has no locks, as some over a network have not.
const NO_LOCKS: i32 = 37;

/// Whether an error says that there are no locks on a file.
fn has_no_locks(error: &io::Error) -> bool {
    error.kind() == io::ErrorKind::Unsupported || error.raw_os_error() == Some(NO_LOCKS)
}

/// The folder in which the file at a path lies, whatever links lead to it.
fn folder_of<R: Files<File = File> + AllocGlobal>(rt: &R, path: &str) -> io::Result<File> {
    let place = fs::canonicalize(rt, path)?;
    match place.as_path().parent() {
        Some(folder) => File::open(rt, folder),
        None => Err(io::Error::from(io::ErrorKind::InvalidInput)),
    }
}

/// Syncs a file that is read alone: what another program wrote to it and did not sync lasts from then on. On a medium
/// that cannot be written there is nothing of the kind.
fn synced_to_read(file: &File) -> io::Result<()> {
    match file.sync_data() {
        Err(error) if has_nothing_to_sync(&error) => Ok(()),
        answer => answer,
    }
}

/// Whether an error says that a file takes no sync, as one of a medium that is made once does.
fn has_nothing_to_sync(error: &io::Error) -> bool {
    match error.kind() {
        io::ErrorKind::InvalidInput
        | io::ErrorKind::ReadOnlyFilesystem
        | io::ErrorKind::Unsupported => true,
        _ => false,
    }
}

/// Writes bytes at a place. Of a write of no bytes past the end a system makes nothing, while a disk's file then reaches up
/// to the place, as of any other write: so it is made longer.
fn written(file: &File, at: u64, bytes: &[u8]) -> io::Result<()> {
    if bytes.is_empty() && file.metadata()?.len() < at {
        return file.set_len(at);
    }
    file.write_all_at(bytes, at)
}

/// What the system answered, with each of its errors as the device's.
fn told<T: Drop>(answer: io::Result<T>) -> Result<T, DiskFault> {
    match answer {
        Ok(x) => Ok(x),
        Err(_) => Err(DiskFault::Device),
    }
}

impl Disk for OpenFile {
    ghost use Rattle.file_disk.specs.Nowhere.{none_now, none_only, none_stays};

    ghost is_honest = { λ _. ⊥ };

    ghost seen = { λ _. [] };

    ghost may_leave = { λ _ _. ⊥ };

    ghost moment = { λ _. 0 };

    ghost left_since = { λ _ _ _. ⊥ };

    ghost faults = { λ _. 0 };

    ghost calls = { λ _. 0 };

    ghost counts_now = { none_now };

    ghost only_now = { none_only };

    ghost seen_may_stay = { none_stays };

    fn length(&mut self) -> Result<usize, DiskFault> {
        let metadata = told(self.file.metadata())?;
        Ok(metadata.len() as usize)
    }

    fn read(&mut self, at: usize, buf: &mut [u8]) -> Result<(), DiskFault> {
        told(self.file.read_exact_at(buf, at as u64))
    }

    fn write_at(&mut self, at: usize, bytes: &[u8]) -> Result<(), DiskFault> {
        told(written(&self.file, at as u64, bytes))
    }

    fn sync(&mut self) -> Result<(), DiskFault> {
        if self.is_read_alone {
            return told(synced_to_read(&self.file));
        }
        told(self.file.sync_data())
    }
}
