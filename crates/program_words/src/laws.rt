//! What the synopsis says, as laws.
ghost use Rattle.program_words.specs.Synopsis.{AskOnce};

/// Words ask for one thing at most.
pub fn words_ask_once()
    ensures { AskOnce }
{}
