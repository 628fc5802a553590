//! The answers of a version.
ghost use Rattle.std.specs.Prelude.{◌≡◌, ◌↔◌, None, IsTrue, IsOk, IfOk, IfErr};
ghost use Rattle.overlay_terms.specs.Column.{column_numbered};
ghost use Rattle.overlay_terms.specs.Commands.{stands};
ghost use Rattle.overlay_terms.specs.Layers.{answer_at};
ghost use Rattle.layer_book.specs.Fault.{RefusedBy};
ghost use Rattle.layer_book.specs.Place.{location};
ghost use Rattle.version_core.specs.Edges.{AreEdges, edges_refusal, finished_refusal};
ghost use Rattle.version_core.specs.Verdict.{IsVerdict};

use crate::edges_reply::{finished_tile, written};
use crate::verifying::{Verdict, built_anew};
use exact_point::QueryPoint;
use layer_book::direct_answer::Place;
use layer_book::fault::LayerFault;
use layer_expr::name::Name;
use plane_base::Column;
use std::alloc::Global;
use tile_build::Tile;
use versions::{Version, VersionFault};

/// What is asked of a version.
pub trait Answers {
    /// Where a point lies for a layer.
    fn locate(&self, name: &Name, query: &QueryPoint) -> Result<Place, VersionFault>;

    /// The pieces of a tile, counted and then a line for each.
    fn edges(&self, alloc: Global, name: &Name, number: u64) -> Result<Vec<u8>, VersionFault>;

    /// The same for a column, if it is one. It is refused by the first of 10, 12, 23, 21 and 22 that fits, else perhaps by
    /// 40.
    fn edges_in(
        &self,
        alloc: Global,
        name: &Name,
        column: Option<Column>,
    ) -> Result<Vec<u8>, VersionFault>;

    /// Builds the tile of a layer and column anew, and compares it with the finished one.
    fn verify(&self, alloc: Global, name: &Name, number: u64) -> Result<Verdict, VersionFault>;

    /// The same for a column, if it is one. It is refused by the first of 10, 12, 23 and 21 that fits, else perhaps by 40.
    fn verify_in(
        &self,
        alloc: Global,
        name: &Name,
        column: Option<Column>,
    ) -> Result<Verdict, VersionFault>;
}

impl Answers for Version {
    /// Where a point lies for a layer, straight from the segments that it reaches: they have to be asked for edges, and
    /// show in the same look whether the point is inside. So no tile is asked, finished or not. It takes no memory.
    fn locate(&self, name: &Name, query: &QueryPoint) -> Result<Place, VersionFault>
        ensures ok { IfOk result (λ place. location place ≡ answer_at self.now.layers name.now query.now) }
        ensures known { IsOk result ↔ IsTrue (stands self.now.layers name.now) }
        ensures err { IfErr result (λ fault. fault ≡ VersionFault.Layer LayerFault.UnknownLayer) }
    {
        Ok(self.layers().direct(name, query)?)
    }

    /// The pieces of a tile, counted and then a line for each.
    fn edges(&self, alloc: Global, name: &Name, number: u64) -> Result<Vec<u8>, VersionFault>
        ensures ok { IfOk result (λ text. AreEdges self.now name.now (column_numbered number) text.items) }
        ensures accepted { IfOk result (λ _. edges_refusal self.now name.now (column_numbered number) ≡ None) }
        ensures refused { IfErr result
            (RefusedBy (VersionFault.Layer LayerFault.OutOfMemory)
            (edges_refusal self.now name.now (column_numbered number))) }
    {
        self.edges_in(alloc, name, Column::new(number))
    }

    /// The same for a column, if it is one. It is refused by the first of 10, 12, 23, 21 and 22 that fits, else perhaps by
    /// 40.
    fn edges_in(
        &self,
        alloc: Global,
        name: &Name,
        column: Option<Column>,
    ) -> Result<Vec<u8>, VersionFault>
        ensures ok { IfOk result (λ text. AreEdges self.now name.now column text.items) }
        ensures accepted { IfOk result (λ _. edges_refusal self.now name.now column ≡ None) }
        ensures refused { IfErr result
            (RefusedBy (VersionFault.Layer LayerFault.OutOfMemory) (edges_refusal self.now name.now column)) }
    {
        let column = self.layers().tile_column(name, column)?;
        match finished_tile(self, name, column)? {
            Tile::Pieces(pieces) => Ok(written(alloc, pieces)?),
            Tile::Oversize => Err(VersionFault::Oversize),
        }
    }

    /// Builds the tile of a layer and column anew, and compares it with the finished one.
    fn verify(&self, alloc: Global, name: &Name, number: u64) -> Result<Verdict, VersionFault>
        ensures same { IfOk result (IsVerdict self.now name.now (column_numbered number)) }
        ensures accepted { IfOk result (λ _. finished_refusal self.now name.now (column_numbered number) ≡ None) }
        ensures refused { IfErr result
            (RefusedBy (VersionFault.Layer LayerFault.OutOfMemory)
            (finished_refusal self.now name.now (column_numbered number))) }
    {
        self.verify_in(alloc, name, Column::new(number))
    }

    /// The same for a column, if it is one. It is refused by the first of 10, 12, 23 and 21 that fits, else perhaps by 40.
    fn verify_in(
        &self,
        alloc: Global,
        name: &Name,
        column: Option<Column>,
    ) -> Result<Verdict, VersionFault>
        ensures same { IfOk result (IsVerdict self.now name.now column) }
        ensures accepted { IfOk result (λ _. finished_refusal self.now name.now column ≡ None) }
        ensures refused { IfErr result
            (RefusedBy (VersionFault.Layer LayerFault.OutOfMemory) (finished_refusal self.now name.now column)) }
    {
        let column = self.layers().tile_column(name, column)?;
        let held = finished_tile(self, name, column)?;
        let built = built_anew(self, alloc, name, column)?;
        if held.is_same(&built) {
            Ok(Verdict::Same)
        } else {
            Ok(Verdict::Different)
        }
    }
}
