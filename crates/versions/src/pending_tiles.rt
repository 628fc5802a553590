//! The tiles that are not finished.
ghost use Rattle.std.specs.Prelude.{◌≡◌, ◌++◌, IfOk, IfErr, OnOk};
ghost use Rattle.overlay_terms.specs.Histories.{tile_at};
ghost use Rattle.layer_tiles.specs.Table.{places_in, row_by};
ghost use Rattle.versions.specs.Pending.{pending_of, pending_tiles};

use crate::fault::VersionFault;
use crate::version::Version;
use layer_book::fault::LayerFault;
use layer_expr::name::Name;
use layer_tiles::TileRow;
use plane_base::COLUMN_COUNT;
use std::alloc::{AllocError, Global};

impl Version {
    /// The tiles that are not finished, by derived layer in order, then by column.
    pub fn pending(&self, alloc: Global) -> Result<Vec<(Name, u8)>, VersionFault>
        ensures ok { IfOk result (λ list. list.items ≡ pending_tiles self.now) }
        ensures err { IfErr result (λ fault. fault ≡ VersionFault.Layer LayerFault.OutOfMemory) }
    {
        let mut list = Vec::new(alloc);
        for place in 0..self.layers().len() {
            match self.at(place) {
                Some((name, layer, row)) => {
                    if layer.is_derived() {
                        self.add_pending(&mut list, name, row)?;
                    }
                }
                None => {}
            }
        }
        Ok(list)
    }

    /// Adds the tiles of a layer that are not finished, by column. The layer's row says which.
    fn add_pending(
        &self,
        list: &mut Vec<(Name, u8)>,
        name: &Name,
        row: &TileRow,
    ) -> Result<(), AllocError>
        requires { places_in row.now ≡ row_by (tile_at self.now.tiles name.now) }
        ensures { OnOk result (list.new.items ≡ list.old.items ++ pending_of self.now name.now) }
    {
        for column in 0..COLUMN_COUNT {
            if row.tile_at(usize::from(column)).is_none() {
                list.push((name.clone()?, column))?;
            }
        }
        Ok(())
    }
}
