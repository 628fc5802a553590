//! A picture's columns as text.
ghost use Rattle.std.specs.Prelude.{◌≡◌, ◌<◌, ◌++◌, All, map, length, IfOk, OnOk};
ghost use Rattle.overlay_grid.specs.Rows.{row_of, rows_text};

use crate::grid_spec::GridSpec;
use std::alloc::{AllocError, Global};

/// The columns of a picture as lines, the lowest row first.
pub(crate) fn written(
    alloc: Global,
    grid: &GridSpec,
    columns: &[Vec<u8>],
) -> Result<Vec<u8>, AllocError>
    requires { All (λ c. length c.items ≡ grid.now.ny) columns.now }
    ensures { IfOk result (λ text. text.items ≡ rows_text grid.now (map (λ c. c.items) columns.now)) }
{
    let (nx, ny) = (grid.nx(), grid.ny());
    let mut text = format!(in alloc; "grid {nx} {ny}\n")?.into_bytes();
    for j in 0..ny {
        push_row(&mut text, columns, j)?;
    }
    Ok(text)
}

/// Adds a row as a line.
fn push_row(text: &mut Vec<u8>, columns: &[Vec<u8>], j: usize) -> Result<(), AllocError>
    requires { All (λ c. j < length c.items) columns.now }
    ensures { OnOk result (text.new.items ≡ text.old.items ++ row_of (map (λ c. c.items) columns.now) j) }
{
    for column in columns {
        text.push(column[j])?;
    }
    text.push(b'\n')?;
    Ok(())
}
