//! Grids of points.
ghost use Rattle.std.specs.Prelude.{◌≡◌, ◌↔◌, ◌≤◌, pos, IsOk, IfOk, IfErr};
ghost use Rattle.overlay_grid.specs.Grid.{Grid, IsGridSize, grid_with, side_max};

use crate::fault::GridFault;
use std::marker::Model;

/// The most points in a row or column.
pub const SIDE_MAX: i64 = 256;

/// The longest step from a point to the next.
pub const STEP_MAX: i64 = 2097152;

/// The points (x + i * step, y + j * step), where i is less than nx, and j less than ny.
#[derive(Clone, Copy, Debug)]
pub struct GridSpec {
    x: i64,
    y: i64,
    step: i64,
    nx: u16,
    ny: u16,
}

impl Model for GridSpec {
    ghost Value = { Grid };

    ghost view = { λ g. record { x = g.x; y = g.y; step = g.step; nx = g.nx; ny = g.ny } };

    ghost invariant = { λ g. IsGridSize g.step (pos g.nx) (pos g.ny) };

    ghost inverse = { λ g. record { x = g.x; y = g.y; step = g.step; nx = g.nx; ny = g.ny } };
}

impl GridSpec {
    /// The grid with these numbers, if it has some points and not too many, and its step is neither
    /// too short nor too long. Where the points lie is not asked.
    pub fn new(x: i64, y: i64, step: i64, nx: i64, ny: i64) -> Result<GridSpec, GridFault>
        ensures ok { IfOk result (λ grid. grid ≡ grid_with x y step nx ny) }
        ensures known { IsOk result ↔ IsGridSize step nx ny }
        ensures err { IfErr result (λ e. e ≡ GridFault.GridSize) }
    {
        if step < 1 || step > STEP_MAX {
            return Err(GridFault::GridSize);
        }
        if nx < 1 || nx > SIDE_MAX || ny < 1 || ny > SIDE_MAX {
            return Err(GridFault::GridSize);
        }
        Ok(GridSpec {
            x,
            y,
            step,
            nx: nx as u16,
            ny: ny as u16,
        })
    }

    /// The x of the first column.
    pub fn x(&self) -> i64
        ensures { result ≡ self.now.x }
    {
        self.x
    }

    /// The y of the first row.
    pub fn y(&self) -> i64
        ensures { result ≡ self.now.y }
    {
        self.y
    }

    pub fn step(&self) -> i64
        ensures value { result ≡ self.now.step }
        ensures valid { IsGridSize self.now.step (pos self.now.nx) (pos self.now.ny) }
    {
        self.step
    }

    /// How many points there are in a row.
    pub fn nx(&self) -> usize
        ensures value { result ≡ self.now.nx }
        ensures some { 1 ≤ result }
        ensures few { result ≤ side_max }
    {
        usize::from(self.nx)
    }

    /// How many points there are in a column.
    pub fn ny(&self) -> usize
        ensures value { result ≡ self.now.ny }
        ensures some { 1 ≤ result }
        ensures few { result ≤ side_max }
    {
        usize::from(self.ny)
    }
}
