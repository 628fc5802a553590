//! Why a picture is refused.
ghost use Rattle.std.specs.Prelude.{◌≡◌};
ghost use Rattle.fault_texts.specs.FaultText.{shown, IsBrief};
ghost use Rattle.overlay_grid.specs.Fault.{code_of, text_of};
ghost use Rattle.overlay_grid.specs.declared.fault.GridFault.TheVariants.{Layer};
ghost use Rattle.layer_book.specs.declared.fault.LayerFault.TheVariants.{OutOfMemory};

use exact_point::PointFault;
use fault_texts::FaultText;
use layer_book::fault::LayerFault;
use std::alloc::AllocError;
use thiserror::Error;

/// Why a grid is none, or no picture of a layer is drawn on it.
#[derive(Clone, Copy, Debug, PartialEq, Eq, Error)]
#[error("{}", self.text())]
pub enum GridFault {
    /// The grid has no point, too many in a row or column, or its step is too short or too long.
    GridSize,
    Layer(LayerFault),
    /// A point of the grid lies outside the coordinates.
    Point(PointFault),
}

impl GridFault {
    /// The number under which the fault is printed: 45, or that of its cause.
    pub fn code(&self) -> u8
        ensures { result ≡ code_of self.now }
    {
        match self {
            GridFault::GridSize => 45,
            GridFault::Layer(fault) => fault.code(),
            GridFault::Point(fault) => fault.code(),
        }
    }

    /// The text that is printed after the number.
    pub fn text(&self) -> FaultText
        ensures text { shown result ≡ text_of self.now }
        ensures brief { IsBrief result }
    {
        match self {
            GridFault::GridSize => FaultText::Plain("grid size"),
            GridFault::Layer(fault) => fault.text(),
            GridFault::Point(fault) => fault.text(),
        }
    }
}

impl From<AllocError> for GridFault {
    ghost from_gives = { λ _ e. e ≡ Layer OutOfMemory };

    fn from(_e: AllocError) -> GridFault {
        GridFault::Layer(LayerFault::OutOfMemory)
    }
}
