//! One range of coordinates, and the rings of texts: each function does nothing, and its contract is the law.

ghost use Rattle.range_laws.specs.Ranges.{OneRange, TextsSpellRings};

/// The test of a coordinate, which texts, records, grids and windows share, takes just the numbers in range, and so
/// many may be asked about.
pub fn one_range()
    ensures { OneRange }
{}

/// Texts spell just the rings that a base layer may have: closed, in range, and without a fault.
pub fn texts_spell_rings()
    ensures { TextsSpellRings }
{}
