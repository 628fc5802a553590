//! Laws over the definitions: each function does nothing, and its contract is the law.

ghost use Rattle.std.specs.Prelude.{ℕ};
ghost use Rattle.store_terms.specs.Fields.{IsField};
ghost use Rattle.store_terms.specs.BaseRecord.{rings};
ghost use Rattle.store_terms.specs.TileRecord.{named_tile};
ghost use Rattle.store_terms.specs.Catalog.{catalog};
ghost use Rattle.store_terms.specs.Frame.{ElsewhereHasNoMeaning};
ghost use Rattle.store_terms.specs.RecordLaws.{BaseReadsBack, BodyReadsBack, DefinitionIsItsText};
ghost use Rattle.store_terms.specs.RecordLaws.{HeldIsOrderly, HeldIsPlaced, OldHasNoTiles, TileIsNamed};
ghost use Rattle.store_terms.specs.Spelled.{SpelledIsHeld, HeldIsSpelled};

/// What is read as a base record is spelled so, and what is spelled so is read.
pub fn base_records()
    ensures { IsField rings }
{}

/// The same of tile records.
pub fn tile_records()
    ensures { IsField named_tile }
{}

/// The same of catalogs, whatever the number of columns.
pub fn catalogs()
    ensures { (n : ℕ) → IsField (catalog n) }
{}

/// What a file holds for a root rests on the bytes of its extents alone.
pub fn elsewhere_has_no_meaning()
    ensures { ElsewhereHasNoMeaning }
{}

/// A root whose catalog lists the records of layers and tiles holds them.
pub fn spelled_is_held()
    ensures { SpelledIsHeld }
{}

/// What a root holds is spelled in the places that its catalog lists.
pub fn held_is_spelled()
    ensures { HeldIsSpelled }
{}

/// A definition record is the text of its expression, and no other spelling.
pub fn definition_is_its_text()
    ensures { DefinitionIsItsText }
{}

/// A tile record spells a tile by some names of its ends.
pub fn tile_is_named()
    ensures { TileIsNamed }
{}

/// Where a root holds something, each of its extents is placed.
pub fn held_is_placed()
    ensures { HeldIsPlaced }
{}

/// The record of a base layer's rings is read again.
pub fn base_reads_back()
    ensures { BaseReadsBack }
{}

/// The body of a root is read again.
pub fn body_reads_back()
    ensures { BodyReadsBack }
{}

/// The layers that a root holds are in order.
pub fn held_is_orderly()
    ensures { HeldIsOrderly }
{}

/// An old root holds no tiles, whatever its catalog says of them.
pub fn old_has_no_tiles()
    ensures { OldHasNoTiles }
{}
