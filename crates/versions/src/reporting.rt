//! Reports of numbers that are durable.
ghost use Rattle.std.specs.Prelude.{◌≡◌, ◌≤◌, IfOk, IfErr};
ghost use Rattle.overlay_terms.specs.Histories.{IsReported};

use crate::fault::VersionFault;
use crate::version::Version;
use layer_book::fault::LayerFault;
use std::alloc::{AllocError, Global};

impl Version {
    /// The version after a report that a number is durable. A number that is durable already, or is
    /// beyond the version's own, changes nothing. Layers and tiles are shared.
    pub fn durable_to(&self, alloc: Global, number: u64) -> Result<Version, VersionFault>
        ensures ok { IfOk result (λ next. IsReported self.now number next) }
        ensures err { IfErr result (λ fault. fault ≡ VersionFault.Layer LayerFault.OutOfMemory) }
    {
        if number <= self.durable() || self.number() < number {
            return Ok(self.with_durable(alloc, self.durable())?);
        }
        Ok(self.with_durable(alloc, number)?)
    }

    /// The version with this durable number.
    pub(crate) fn with_durable(&self, alloc: Global, durable: u64) -> Result<Version, AllocError>
        requires { durable ≤ self.now.number }
        ensures { IfOk result (λ next. next ≡ record { number = self.now.number; layers = self.now.layers; tiles = self.now.tiles; durable = durable }) }
    {
        let table = self.table(alloc)?;
        let number = self.number();
        Ok(Version::of(number, durable, table))
    }
}
