//! What lines decide: each function does nothing, and its contract is the law.

ghost use Rattle.std.specs.Prelude.{Bool};
ghost use Rattle.script_form.specs.Transcript.{store_by};
ghost use Rattle.line_laws.specs.Deciding.{LinesDecide, TranscriptsHaveTurns};

use std::marker::Brand;

/// What the transcripts of a law may report of a store, at which history. A call that passes `Brand` picks it.
pub trait Reports {
    ghost use Rattle.overlay_terms.specs.Histories.{History};
    ghost use Rattle.script_form.specs.Transcript.{StoreReport};

    ghost reported: { History → StoreReport → Type 0 };
}

impl Reports for Brand {
    // Where a call picks nothing, nothing is asked.
    ghost reported = { λ history report. Unit {0} };
}

/// Where no one else's command was accepted meanwhile, the number and the layers of the version after each line or
/// batch, and what was made, are fixed by the version that was seen before, by the lines, and by which of them were
/// refused because memory ran out, the book closed or was not as far.
pub fn lines_decide<A: Reports, B: Reports>()
    ensures { (there other_there : Bool) → LinesDecide (store_by A.reported there) (store_by B.reported other_there) }
{}

/// Each transcript goes turn by turn: one for each line, and for each batch with its lines.
pub fn transcripts_have_turns<A: Reports>()
    ensures { (there : Bool) → TranscriptsHaveTurns (store_by A.reported there) }
{}
