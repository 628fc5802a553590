//! Memory that is taken ahead for a version.
ghost use Rattle.std.specs.Prelude.{◌≡◌, IfOk, IfErr};
ghost use Rattle.std.specs.Arc.{arc_value};
ghost use Rattle.book_history.specs.Fault.{no_memory};

use crate::shared_version::shared;
use book_history::fault::BookFault;
use std::alloc::Global;
use std::sync::Arc;
use versions::Version;

/// Memory for a version, where there was some: so what has to be reported can be, where there is none any more.
#[derive(Drop)]
pub struct Room {
    place: Option<Arc<Version, Global>>,
}

impl Room {
    /// Takes memory for a version, where there is some.
    pub fn new(alloc: Global) -> Room {
        Room {
            place: shared(alloc, Version::empty(alloc)).ok(),
        }
    }

    /// A version for as many as ask for it, in this memory, or where there is none, in memory that it asks for.
    pub(crate) fn shared(
        &mut self,
        alloc: Global,
        version: Version,
    ) -> Result<Arc<Version, Global>, BookFault>
        ensures ok { IfOk result (λ v. arc_value v ≡ version) }
        ensures err { IfErr result (λ fault. fault ≡ no_memory) }
    {
        if let Some(place) = self.place.take() {
            let mut place = place;
            // Nobody else ever has it; if somebody had, other memory would be asked for.
            if let Some(own) = Arc::get_mut(&mut place) {
                *own = version;
                return Ok(place);
            }
        }
        shared(alloc, version)
    }
}
