//! Replies as lines of text.
use crate::bytes::word_at;
use crate::reply::{Reply, row_size};
use byteorder::{ByteOrder, LittleEndian};
use std::alloc::{AllocError, Global};

/// The words of relations, by their numbers.
fn word(relation: u32) -> &'static str {
    match relation {
        0 => "disjoint",
        1 => "touches",
        2 => "overlaps",
        3 => "within",
        4 => "contains",
        _ => "equals",
    }
}

/// The words of spots.
fn spot(number: u32) -> &'static str {
    match number {
        0 => "outside",
        1 => "inside",
        2 => "edge",
        _ => "fine",
    }
}

/// The signed number of 16 bytes from a place on; 0 where there are fewer.
fn wide_at(row: &[u8], at: usize) -> i128 {
    match row.get(at..at.saturating_add(16)) {
        Some(bytes) => LittleEndian::read_i128(bytes),
        None => 0,
    }
}

/// Adds the line of a pair's row.
fn add_pair(line: &mut String, row: &[u8]) -> Result<(), AllocError> {
    let properly = if word_at(row, 8) == 1 {
        " properly"
    } else {
        ""
    };
    writeln!(
        line,
        "{}{} {} {} {} bound {}",
        word(word_at(row, 4)),
        properly,
        wide_at(row, 32),
        wide_at(row, 48),
        wide_at(row, 64),
        wide_at(row, 80)
    )?;
    Ok(())
}

/// Adds the line of a row.
fn add_line(line: &mut String, kind: u32, row: &[u8]) -> Result<(), AllocError> {
    let first = word_at(row, 0);
    if kind == 2 {
        writeln!(line, "{}", spot(first))?;
    } else if first != 0 {
        writeln!(line, "error {}", first)?;
    } else if kind == 0 {
        add_pair(line, row)?;
    } else {
        writeln!(line, "area {} bound {}", wide_at(row, 16), wide_at(row, 32))?;
    }
    Ok(())
}

impl Reply {
    /// The line of a block that is refused.
    fn refusal_line(&self, alloc: Global) -> Result<String, AllocError> {
        let mut line = String::new(alloc);
        if self.job == u32::MAX {
            writeln!(&mut line, "error {}", self.fault)?;
        } else {
            writeln!(&mut line, "error {} job {}", self.fault, self.job)?;
        }
        Ok(line)
    }

    /// The reply as lines: one for each row.
    pub fn lines(&self, alloc: Global) -> Result<String, AllocError> {
        if self.fault != 0 {
            return self.refusal_line(alloc);
        }
        let mut lines = String::new(alloc);
        for row in self.rows.chunks(row_size(self.kind)) {
            add_line(&mut lines, self.kind, row)?;
        }
        Ok(lines)
    }
}
