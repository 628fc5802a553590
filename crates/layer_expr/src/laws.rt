//! Laws of reading and writing expressions.
ghost use Rattle.layer_expr.specs.Laws.{WrittenReadsBack, ReadIsExpression, FewestTokens};
ghost use Rattle.layer_expr.specs.Laws.{OneTree, OneFault, NeverBoth, ReadOrRefused};

/// What is written for an expression reads back as the same tree.
pub fn written_reads_back()
    ensures { WrittenReadsBack }
{}

/// What is read is an expression: its leaves are names, and its text has at most 64 tokens.
pub fn read_is_expression()
    ensures { ReadIsExpression }
{}

/// The text that is written has no more tokens than any other that reads as the same tree.
pub fn fewest_tokens()
    ensures { FewestTokens }
{}

/// A text has one tree.
pub fn one_tree()
    ensures { OneTree }
{}

/// A text has one first fault.
pub fn one_fault()
    ensures { OneFault }
{}

/// No text is both read and refused.
pub fn never_both()
    ensures { NeverBoth }
{}

/// Each text is read or refused.
pub fn read_or_refused()
    ensures { ReadOrRefused }
{}
