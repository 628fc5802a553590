//! What holds of all texts.
ghost use Rattle.wkt_form.specs.Laws.{SpellsOneLayer, HasOneFault, NeverBoth, ReadOrRefused, WrittenReadsBack};

/// Each text has one meaning or one fault, and never both.
pub fn one_meaning()
    ensures layer { SpellsOneLayer }
    ensures fault { HasOneFault }
    ensures never_both { NeverBoth }
{}

/// Each text is read or refused.
pub fn read_or_refused()
    ensures { ReadOrRefused }
{}

/// The text of a layer is read as it.
pub fn written_reads_back()
    ensures { WrittenReadsBack }
{}
