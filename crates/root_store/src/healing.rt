//! The completing write of opening a store.
ghost use Rattle.std.specs.Prelude.{◌≡◌, ◌↔◌, ◌<◌, IfErr};
ghost use Rattle.store_terms.specs.Roots.{sequence_max};
ghost use Rattle.root_store.specs.HonestSteps.{HealsHonestly};

use crate::slots::other_body;
use disk_model::disk::Disk;
use record_writing::root_body::write_body;
use root_reading::load_fault::LoadFault;
use store_terms::root::Root;

/// Puts behind the shut gate of the other slot a body that does no harm should it come open: the next sequence, and the
/// same version and catalog. By one write and one sync; nothing else is written, at no moment of the call.
pub(crate) fn heal<D: Disk>(disk: &mut D, root: Root) -> Result<(), LoadFault>
    requires { root.sequence < sequence_max }
    ensures honest { D.is_honest disk.new ↔ D.is_honest disk.old }
    ensures err { IfErr result (λ e. e ≡ LoadFault.Device) }
    ensures heals { D.is_honest disk.old → HealsHonestly D.Disk root disk.old disk.new result }
{
    let twin = Root {
        is_old: root.is_old,
        sequence: root.sequence + 1,
        version: root.version,
        catalog: root.catalog,
    };
    let body = write_body(twin);
    disk.write_at(other_body(root), &body)?;
    disk.sync()?;
    Ok(())
}
