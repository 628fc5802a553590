//! The text of a fault, in pieces that find room in a line.
ghost use Rattle.std.specs.Prelude.{Some};
ghost use Rattle.fault_texts.specs.FaultText.{shown};

use std::fmt;

/// The text of a fault, with the number that it carries.
#[derive(Clone, Copy, Debug, PartialEq, Eq)]
pub enum FaultText {
    Plain(&'static str),
    /// A text, and the number after it.
    At(&'static str, usize),
    /// The number of a ring, and the text after it.
    Ring(usize, &'static str),
}

impl fmt::Display for FaultText {
    ghost output = { λ text. Some (shown text) };

    fn fmt<W: fmt::Write>(&self, f: &mut fmt::Formatter<W>) -> fmt::Result {
        match *self {
            FaultText::Plain(text) => write!(f, "{text}"),
            FaultText::At(text, number) => write!(f, "{text}{number}"),
            FaultText::Ring(number, text) => write!(f, "ring {number}{text}"),
        }
    }
}
