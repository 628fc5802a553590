//! The bytes of the next block.
use byteorder::{ByteOrder, LittleEndian};
use fault_texts::CommonFault;
use std::alloc::Global;
use std::io::Read;

/// The most bytes that are read at once.
const PART: usize = 65536;

/// What comes next from an input.
#[derive(Debug, Drop)]
pub enum Next {
    /// The bytes of a block, as many as its length says, or all that there are.
    Block(Vec<u8>),
    End,
    /// A block of more bytes than may be held; they are passed over.
    TooLong,
}

/// Reads some bytes, so many at most, and adds them to those held, if they are kept; how many they are.
fn take<R: Read>(
    from: &mut R,
    part: &mut [u8],
    most: u64,
    held: &mut Vec<u8>,
    keeps: bool,
) -> Result<u64, CommonFault> {
    let room = if most < part.len() as u64 {
        most as usize
    } else {
        part.len()
    };
    let Ok(got) = from.read(&mut part[..room]) else {
        return Err(CommonFault::Read);
    };
    if keeps {
        if let Some(bytes) = part.get(..got) {
            if held.extend_from_slice(bytes).is_err() {
                return Err(CommonFault::OutOfMemory);
            }
        }
    }
    Ok(got as u64)
}

/// Adds bytes to those held until they are so many more, or none are left; where they are not kept, they are passed over.
fn fill<R: Read>(
    alloc: Global,
    from: &mut R,
    held: &mut Vec<u8>,
    count: u64,
    keeps: bool,
) -> Result<(), CommonFault> {
    let Ok(mut part) = vec![in alloc; 0_u8; PART] else {
        return Err(CommonFault::OutOfMemory);
    };
    let mut left = count;
    for _ in 0..count {
        let got = take(from, &mut part, left, held, keeps)?;
        if got == 0 || got >= left {
            return Ok(());
        }
        left = left.saturating_sub(got);
    }
    Ok(())
}

/// The next block of an input, of so many bytes at most.
pub fn next_block<R: Read>(alloc: Global, from: &mut R, most: u64) -> Result<Next, CommonFault> {
    let mut held = Vec::new(alloc);
    fill(alloc, from, &mut held, 8, true)?;
    if held.is_empty() {
        return Ok(Next::End);
    }
    if held.len() < 8 {
        return Ok(Next::Block(held));
    }
    let length = LittleEndian::read_u64(&held);
    fill(
        alloc,
        from,
        &mut held,
        length.saturating_sub(8),
        length <= most,
    )?;
    if length > most {
        return Ok(Next::TooLong);
    }
    Ok(Next::Block(held))
}
