//! Rows of finished tiles.
ghost use Rattle.std.specs.Prelude.{◌≡◌, ◌<◌, None, Some, false, get_or, is_some, length, map};
ghost use Rattle.std.specs.Prelude.{replicate, set, IfNone, IfOk, IfSome, IsTrue, OnErr, OnOk, if◌then◌else◌, List, Option};
ghost use Rattle.std.specs.List.{list_all};
ghost use Rattle.std.specs.Option.{option_map};
ghost use Rattle.overlay_terms.specs.Column.{column_count};
ghost use Rattle.tile_build.specs.Tile.{named_pieces};
ghost use Rattle.layer_tiles.specs.TileCode.{Named};
ghost use Rattle.layer_tiles.specs.Table.{count_missing, put_all, row_by, row_of, tile_in_slot, IsRow};

use layer_book::touching::COLUMNS;
use plane_base::Column;
use std::alloc::{AllocError, Global};
use std::marker::Model;
use std::sync::Arc;
use tile_build::Tile;

/// A place for a finished tile. Rows share the tile.
#[derive(Debug, Drop)]
pub struct Slot {
    tile: Option<Arc<Tile>>,
}

/// A tile that was put into a row, with its column.
#[derive(Debug, Drop)]
pub struct LateTile {
    column: Column,
    tile: Arc<Tile>,
}

/// How many tiles are put beside the slots of a row before all are copied into slots of their own. So a tile more costs
/// few copies, and not one for each column.
const LATE_MOST: usize = 6;

/// The slots of a row, which rows share, and the tiles that were put into it since, the last one first.
#[derive(Debug, Drop)]
pub struct RowParts {
    slots: Arc<Vec<Slot>>,
    late: Vec<LateTile>,
}

/// The finished tiles of a layer, by column. Tables share it. It knows how many are missing.
#[derive(Debug, Drop)]
pub struct TileRow {
    parts: Arc<RowParts>,
    missing: usize,
}

impl Model for TileRow {
    ghost use Rattle.std.specs.Prelude.{List, Option};
    ghost use Rattle.layer_tiles.specs.TileCode.{Named};
    ghost use Rattle.layer_tiles.specs.Table.{row_code, row_of, IsRow};

    ghost Value = { List (Option Named) };

    ghost coded = { row_code };

    ghost view = { λ r. row_of r.parts.value };

    ghost invariant = { λ r. IsRow r.parts.value r.missing };
}

impl TileRow {
    /// A row without a tile.
    pub(crate) fn empty(alloc: Global) -> Result<TileRow, AllocError>
        ensures { IfOk result (λ row. row ≡ replicate column_count None) }
    {
        let mut slots = Vec::with_capacity(alloc, COLUMNS)?;
        for _ in 0..COLUMNS {
            slots.push(Slot { tile: None })?;
        }
        TileRow::of(alloc, slots)
    }

    /// The row of its slots.
    fn of(alloc: Global, slots: Vec<Slot>) -> Result<TileRow, AllocError>
        requires { length slots.items ≡ column_count }
        ensures { IfOk result (λ row. row ≡ map tile_in_slot slots.items) }
    {
        let missing = missing_in(&slots);
        let slots = Arc::new(alloc, slots)?;
        let parts = RowParts {
            slots,
            late: Vec::new(alloc),
        };
        TileRow::by(alloc, parts, missing)
    }

    /// The row of its parts, which miss so many tiles.
    fn by(alloc: Global, parts: RowParts, missing: usize) -> Result<TileRow, AllocError>
        requires { IsRow parts missing }
        ensures { IfOk result (λ row. row ≡ row_of parts) }
    {
        let parts = Arc::new(alloc, parts)?;
        Ok(TileRow { parts, missing })
    }

    /// The same row, shared by one more.
    pub(crate) fn share(&self) -> Result<TileRow, AllocError>
        ensures value { IfOk result (λ row. row ≡ self.now) }
        ensures whole { length self.now ≡ column_count }
    {
        Ok(TileRow {
            parts: self.parts.clone()?,
            missing: self.missing,
        })
    }

    /// The tile of the column that has a number, if one has.
    pub fn tile_at(&self, number: usize) -> Option<&Arc<Tile>>
        ensures { option_map (λ tile. named_pieces tile.now.value) result ≡ get_or self.now number None }
    {
        self.parts.tile_at(number)
    }

    /// Whether a column has its tile.
    pub fn has(&self, column: Column) -> bool
        ensures { result ≡ is_some (get_or self.now column None) }
    {
        self.tile_at(usize::from(column.number())).is_some()
    }

    /// Whether each column has its tile.
    pub fn is_full(&self) -> bool
        ensures { result ≡ list_all is_some self.now }
    {
        self.missing == 0
    }

    /// The row with a tile more, or in the place of the one that is there.
    pub(crate) fn with(
        &self,
        alloc: Global,
        column: Column,
        tile: Arc<Tile>,
    ) -> Result<TileRow, AllocError>
        ensures { IfOk result (λ row. row ≡ set self.now column (Some (named_pieces tile.value))) }
    {
        let missing = self.missing_with(column);
        let parts = self.parts.with(alloc, column, tile)?;
        TileRow::by(alloc, parts, missing)
    }

    /// Puts a tile into the row, or in the place of the one that is there. Nothing is copied where nobody else has the
    /// row's slots.
    pub(crate) fn put(
        &mut self,
        alloc: Global,
        column: Column,
        tile: Arc<Tile>,
    ) -> Result<(), AllocError>
        ensures ok { OnOk result (self.new ≡ set self.old column (Some (named_pieces tile.value))) }
        ensures err { OnErr result (self.new ≡ self.old) }
    {
        let missing = self.missing_with(column);
        match put_in_own(&mut self.parts, column, tile) {
            None => {}
            Some(tile) => {
                let parts = self.parts.with_slots(alloc, column, tile)?;
                self.parts = Arc::new(alloc, parts)?;
            }
        }
        self.missing = missing;
        Ok(())
    }

    /// How many tiles are missing where a column has one.
    fn missing_with(&self, column: Column) -> usize
        ensures { (tile : Named) → result ≡ count_missing (set self.now column (Some tile)) }
    {
        // A column is below their number by its type: the clause rests on that.
        let _ = column.number();
        if self.has(column) {
            self.missing
        } else {
            self.missing - 1
        }
    }

    /// The row without the tiles of the columns that are marked. Where it has none of them it is shared; where it has
    /// no others, a row without a tile is, which is handed in.
    pub(crate) fn without(
        &self,
        alloc: Global,
        marks: &[bool; COLUMNS],
        bare: &TileRow,
    ) -> Result<TileRow, AllocError>
        requires { bare.now ≡ replicate column_count None }
        ensures { IfOk result (λ row. row
            ≡ row_by (λ k. if get_or marks.now k false then None else get_or self.now k None)) }
    {
        if self.has_none_of(marks, true) {
            return self.share();
        }
        if self.has_none_of(marks, false) {
            return bare.share();
        }
        let slots = left_in(alloc, &self.parts, marks)?;
        TileRow::of(alloc, slots)
    }

    /// Whether the row has no tile of the columns that are marked, or of those that are not, as is asked for.
    fn has_none_of(&self, marks: &[bool; COLUMNS], marked: bool) -> bool
        ensures { IsTrue result → (k : _) → k < column_count → get_or marks.now k false ≡ marked
            → get_or self.now k None ≡ None }
    {
        if self.missing == COLUMNS {
            return true;
        }
        for number in 0..COLUMNS {
            if marks[number] == marked && self.tile_at(number).is_some() {
                return false;
            }
        }
        true
    }
}

impl RowParts {
    /// The tile of the column that has a number, if one has.
    fn tile_at(&self, number: usize) -> Option<&Arc<Tile>>
        requires { length (row_of self.now) ≡ column_count }
        ensures { option_map (λ tile. named_pieces tile.now.value) result ≡ get_or (row_of self.now) number None }
    {
        match late_at(&self.late, number) {
            Some(tile) => Some(tile),
            None => slot_at(&self.slots, number),
        }
    }

    /// The parts with a tile more, or in the place of the one that is there.
    fn with(&self, alloc: Global, column: Column, tile: Arc<Tile>) -> Result<RowParts, AllocError>
        requires { length (row_of self.now) ≡ column_count }
        ensures { IfOk result (λ parts. row_of parts ≡ set (row_of self.now) column (Some (named_pieces tile.value))) }
    {
        if self.late.len() < LATE_MOST {
            let late = with_late(alloc, &self.late, column, tile)?;
            return Ok(RowParts {
                slots: self.slots.clone()?,
                late,
            });
        }
        self.with_slots(alloc, column, tile)
    }

    /// The same in slots of its own.
    fn with_slots(
        &self,
        alloc: Global,
        column: Column,
        tile: Arc<Tile>,
    ) -> Result<RowParts, AllocError>
        requires { length (row_of self.now) ≡ column_count }
        ensures { IfOk result (λ parts. row_of parts ≡ set (row_of self.now) column (Some (named_pieces tile.value))) }
    {
        let mut slots = left_in(alloc, self, &[false; COLUMNS])?;
        put(&mut slots, column, tile);
        Ok(RowParts {
            slots: Arc::new(alloc, slots)?,
            late: Vec::new(alloc),
        })
    }

    /// Puts a tile into its slot, where nobody else has the slots and no tile lies beside them. Else it comes back.
    fn put_in_slot(&mut self, column: Column, tile: Arc<Tile>) -> Option<Arc<Tile>>
        requires { length (row_of self.old) ≡ column_count }
        ensures put { IfNone result (row_of self.new ≡ set (row_of self.old) column (Some (named_pieces tile.value))) }
        ensures back { IfSome result (λ back. (back ≡ tile) × (row_of self.new ≡ row_of self.old)) }
    {
        if self.late.is_empty() {
            put_in_slots(&mut self.slots, column, tile)
        } else {
            Some(tile)
        }
    }
}

/// Puts a tile into the row of these parts, where nobody else has them and their slots. Else it comes back.
fn put_in_own(parts: &mut Arc<RowParts>, column: Column, tile: Arc<Tile>) -> Option<Arc<Tile>>
    requires { length (row_of parts.old.value) ≡ column_count }
    ensures put { IfNone result (row_of parts.new.value ≡ set (row_of parts.old.value) column (Some (named_pieces tile.value))) }
    ensures back { IfSome result (λ back. (back ≡ tile) × (row_of parts.new.value ≡ row_of parts.old.value)) }
{
    match Arc::get_mut(parts) {
        Some(own) => own.put_in_slot(column, tile),
        None => Some(tile),
    }
}

/// Puts a tile into its slot, where nobody else has the slots. Else it comes back.
fn put_in_slots(slots: &mut Arc<Vec<Slot>>, column: Column, tile: Arc<Tile>) -> Option<Arc<Tile>>
    requires { length slots.old.value.items ≡ column_count }
    ensures put { IfNone result
        (slots.new.value.items ≡ set slots.old.value.items column (record { tile = Some tile })) }
    ensures back { IfSome result (λ back. (back ≡ tile) × (slots.new.value ≡ slots.old.value)) }
{
    match Arc::get_mut(slots) {
        Some(own) => {
            put(own, column, tile);
            None
        }
        None => Some(tile),
    }
}

/// The tile that was put into the column with a number last, if one was.
fn late_at(late: &[LateTile], number: usize) -> Option<&Arc<Tile>>
    ensures some { IfSome result (λ tile. (row : List (Option Named)) → length row ≡ column_count
        → get_or (put_all late.now row) number None ≡ Some (named_pieces tile.now.value)) }
    ensures none { IfNone result ((row : List (Option Named))
        → get_or (put_all late.now row) number None ≡ get_or row number None) }
{
    for one in late {
        if usize::from(one.column.number()) == number {
            return Some(&one.tile);
        }
    }
    None
}

/// The tile in the slot of the column with a number, if there is one.
fn slot_at(slots: &[Slot], number: usize) -> Option<&Arc<Tile>>
    ensures { option_map (λ tile. named_pieces tile.now.value) result
        ≡ get_or (map tile_in_slot slots.now) number None }
{
    match slots.get(number) {
        Some(slot) => match &slot.tile {
            Some(tile) => Some(tile),
            None => None,
        },
        None => None,
    }
}

/// A tile, and after it those that were put into the row before.
fn with_late(
    alloc: Global,
    late: &[LateTile],
    column: Column,
    tile: Arc<Tile>,
) -> Result<Vec<LateTile>, AllocError>
    ensures { IfOk result (λ with. (row : List (Option Named))
        → put_all with.items row ≡ set (put_all late.now row) column (Some (named_pieces tile.value))) }
{
    let mut with = Vec::with_capacity(alloc, late.len() + 1)?;
    with.push(LateTile { column, tile })?;
    for one in late {
        with.push(LateTile {
            column: one.column,
            tile: one.tile.clone()?,
        })?;
    }
    Ok(with)
}

/// Puts a tile into the slot of a column.
fn put(slots: &mut Vec<Slot>, column: Column, tile: Arc<Tile>)
    requires { length slots.old.items ≡ column_count }
    ensures { slots.new.items ≡ set slots.old.items column (record { tile = Some tile }) }
{
    slots[usize::from(column.number())] = Slot { tile: Some(tile) };
}

/// The tiles of a row in slots of their own, but for those of the columns that are marked.
fn left_in(
    alloc: Global,
    parts: &RowParts,
    marks: &[bool; COLUMNS],
) -> Result<Vec<Slot>, AllocError>
    requires { length (row_of parts.now) ≡ column_count }
    ensures { IfOk result (λ left. map tile_in_slot left.items
        ≡ row_by (λ k. if get_or marks.now k false then None else get_or (row_of parts.now) k None)) }
{
    let mut left = Vec::with_capacity(alloc, COLUMNS)?;
    for i in 0..COLUMNS {
        let kept = slot_of(parts.tile_at(i), marks[i])?;
        left.push(kept)?;
    }
    Ok(left)
}

/// The slot of a tile, or an empty one where it is gone.
fn slot_of(tile: Option<&Arc<Tile>>, is_gone: bool) -> Result<Slot, AllocError>
    ensures { IfOk result (λ slot. tile_in_slot slot
        ≡ (if is_gone then None else option_map (λ kept. named_pieces kept.now.value) tile.entry)) }
{
    match tile {
        Some(tile) if !is_gone => Ok(Slot {
            tile: Some(tile.clone()?),
        }),
        _ => Ok(Slot { tile: None }),
    }
}

/// How many slots have no tile.
fn missing_in(slots: &[Slot]) -> usize
    ensures { result ≡ count_missing (map tile_in_slot slots.now) }
{
    let mut missing = 0;
    for slot in slots {
        if slot.tile.is_none() {
            missing += 1;
        }
    }
    missing
}
