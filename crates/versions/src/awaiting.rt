//! Asking for the tiles of a layer.
ghost use Rattle.std.specs.Prelude.{◌≡◌, ◌↔◌, IsTrue};
ghost use Rattle.versions.specs.Building.{IsBuilt, wait_refusal};

use crate::fault::VersionFault;
use crate::version::Version;
use layer_book::fault::LayerFault;
use layer_expr::name::Name;

impl Version {
    /// Whether each tile of a layer is finished. It takes no memory.
    pub fn is_built(&self, name: &Name) -> bool
        ensures { IsTrue result ↔ IsBuilt self.now name.now }
    {
        match self.at(self.layers().index_of(name)) {
            Some((_, _, row)) => row.is_full(),
            None => false,
        }
    }

    /// Why the tiles of a layer cannot be asked for. It takes no memory, and looks the name up once.
    pub fn wait_refusal(&self, name: &Name) -> Option<VersionFault>
        ensures { result ≡ wait_refusal self.now name.now }
    {
        match self.layers().get(name) {
            None => Some(VersionFault::Layer(LayerFault::UnknownLayer)),
            Some(layer) => {
                if layer.is_derived() {
                    None
                } else {
                    Some(VersionFault::Layer(LayerFault::NotDerived))
                }
            }
        }
    }
}
