//! Why a call on the book is refused.
ghost use Rattle.std.specs.Prelude.{◌≡◌};
ghost use Rattle.fault_texts.specs.FaultText.{shown, IsBrief};
ghost use Rattle.book_history.specs.Fault.{code_of, passes, store_code_of, store_text_of, text_of, whole};

use fault_texts::{CommonFault, FaultText};
use layer_book::batch_fault::BatchFault;
use layer_book::fault::LayerFault;
use thiserror::Error;
use versions::VersionFault;

/// What kept a store from writing a version.
#[derive(Clone, Copy, Debug, PartialEq, Eq)]
pub enum ReportedFault {
    /// The device failed.
    Device,
    /// No room is left within the limit of blocks.
    Full,
    /// The device failed before.
    Failed,
    SequenceLimit,
    OutOfMemory,
}

impl ReportedFault {
    /// The text that is printed after the number.
    pub fn text(&self) -> FaultText
        ensures text { shown result ≡ store_text_of self.now }
        ensures brief { IsBrief result }
    {
        match self {
            ReportedFault::Device => CommonFault::Device.text(),
            ReportedFault::Full => CommonFault::Full.text(),
            ReportedFault::Failed => CommonFault::StoreFailed.text(),
            ReportedFault::SequenceLimit => CommonFault::SequenceLimit.text(),
            ReportedFault::OutOfMemory => CommonFault::OutOfMemory.text(),
        }
    }

    /// The number under which the fault is printed.
    pub fn code(&self) -> u8
        ensures { result ≡ store_code_of self.now }
    {
        match self {
            ReportedFault::Device => CommonFault::Device.code(),
            ReportedFault::Full => CommonFault::Full.code(),
            ReportedFault::Failed => CommonFault::StoreFailed.code(),
            ReportedFault::SequenceLimit => CommonFault::SequenceLimit.code(),
            ReportedFault::OutOfMemory => CommonFault::OutOfMemory.code(),
        }
    }

    /// Whether an accepted command takes it away.
    pub fn passes(&self) -> bool
        ensures { result ≡ passes self.now }
    {
        match self {
            ReportedFault::Full | ReportedFault::SequenceLimit | ReportedFault::OutOfMemory => true,
            ReportedFault::Device | ReportedFault::Failed => false,
        }
    }
}

/// Why a call on the book is refused.
#[derive(Clone, Copy, Debug, PartialEq, Eq, Error)]
#[error("{}", self.text())]
pub enum BookFault {
    /// What the version says to it.
    Version(VersionFault),
    /// The book closes.
    Closing,
    /// A place or a count is refused, or what is locked is behind what was seen. Then nothing changes.
    Gone,
    NoStore,
    /// The store said this.
    Store(ReportedFault),
}

/// The fault where memory runs out.
pub const NO_MEMORY: BookFault = BookFault::Version(VersionFault::Layer(LayerFault::OutOfMemory));

impl BookFault {
    /// The text that is printed after the number.
    pub fn text(&self) -> FaultText
        ensures text { shown result ≡ text_of self.now }
        ensures brief { IsBrief result }
    {
        match self {
            BookFault::Version(fault) => fault.text(),
            BookFault::Closing => CommonFault::Closing.text(),
            BookFault::Gone => CommonFault::Gone.text(),
            BookFault::NoStore => CommonFault::NoStore.text(),
            BookFault::Store(fault) => fault.text(),
        }
    }

    /// The number under which the fault is printed.
    pub fn code(&self) -> u8
        ensures { result ≡ code_of self.now }
    {
        match self {
            BookFault::Version(fault) => fault.code(),
            BookFault::Closing => CommonFault::Closing.code(),
            BookFault::Gone => CommonFault::Gone.code(),
            BookFault::NoStore => CommonFault::NoStore.code(),
            BookFault::Store(fault) => fault.code(),
        }
    }

    /// The fault of a batch that is refused so, which is no single command's.
    pub fn whole(&self) -> BatchFault
        ensures { result ≡ whole self.now }
    {
        BatchFault::Whole(self.code())
    }
}
