//! What is left of a store at the end of its book.
ghost use Rattle.std.specs.Prelude.{◌≡◌, ◌<◌, None, Some, IfSome, IfNone};
ghost use Rattle.root_store.specs.declared.phase.Phase.TheVariants as phases;
ghost use Rattle.kept_store.specs.Unstored.{IsUnstoredFor};

use commit_plan::fault::StoreFault;
use disk_model::disk::Disk;
use flush_core::flusher::Flusher;
use root_store::shut::Shut;
use std::alloc::Global;
use versions::Version;

/// What is left of a store: the number of the version that is stored (0 without a store), why the newest version is not
/// stored, where the store refuses it, and its disk, shut.
pub struct StoreLeft<D> {
    pub stored: u64,
    pub fault: Option<StoreFault>,
    pub disk: Option<Shut<D>>,
}

/// What is left of a store, if there is one, with why it would not begin the commit of the newest version. It makes no
/// device call.
pub(crate) fn left_of<D: Disk>(
    alloc: Global,
    flusher: Option<Flusher<D>>,
    version: &Version,
) -> StoreLeft<D>
    ensures none { IfNone flusher ((result.stored ≡ 0) × (result.disk ≡ None)) }
    ensures some { IfSome flusher (λ f. (result.stored ≡ f.commit.root.version) × (result.disk ≡ Some f.commit.disk)) }
    ensures fault { IfSome result.fault (λ fault. IfSome flusher (λ f. IsUnstoredFor fault f version.now)) }
    ensures failed { IfSome flusher (λ f. f.commit.phase ≡ phases.Failed
        → f.commit.root.version < version.now.number → result.fault ≡ Some StoreFault.Failed) }
{
    match flusher {
        Some(mut flusher) => {
            let fault = refusal_of(alloc, &mut flusher, version);
            StoreLeft {
                stored: flusher.stored(),
                fault,
                disk: Some(flusher.into_disk()),
            }
        }
        None => StoreLeft {
            stored: 0,
            fault: None,
            disk: None,
        },
    }
}

/// Why a store would not begin the commit of a version that it does not hold. It makes no device call.
fn refusal_of<D: Disk>(
    alloc: Global,
    flusher: &mut Flusher<D>,
    version: &Version,
) -> Option<StoreFault>
    ensures disk { flusher.new.commit.disk ≡ flusher.old.commit.disk }
    ensures stored { flusher.new.commit.root.version ≡ flusher.old.commit.root.version }
    ensures fault { IfSome result (λ fault. IsUnstoredFor fault flusher.old version.now) }
    ensures failed { flusher.old.commit.phase ≡ phases.Failed → flusher.old.commit.root.version < version.now.number
        → result ≡ Some StoreFault.Failed }
{
    if flusher.busy() || version.number() <= flusher.stored() {
        return None;
    }
    flusher.begin(alloc, version).err()
}
