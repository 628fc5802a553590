//! The arguments of a command, taken one after another from what comes after its word.
ghost use Rattle.std.specs.Prelude.{◌≡◌, IfNone, IfSome, Some, None};
ghost use Rattle.std.specs.List.{list_all};
ghost use Rattle.script_form.specs.Lines.{is_gap};
ghost use Rattle.script_form.specs.Words.{word_at, left_side_at, number_at, number_or_one_at, right_side_at, text_at};

use crate::number::number_of;
use crate::words::{after_blanks, after_gaps, all_gaps, split_name, split_word};

/// What of a line is not taken yet.
#[derive(Clone, Copy)]
pub struct Rest<'a>(pub &'a [u8]);

impl<'a> Rest<'a> {
    /// A word.
    pub fn word(&mut self) -> Option<&'a [u8]>
        ensures none { IfNone result (word_at self.old.0.now ≡ None) }
        ensures some { IfSome result (λ word. word_at self.old.0.now ≡ Some (word.now, self.new.0.now)) }
    {
        let (word, rest) = split_word(after_gaps(self.0));
        if word.is_empty() {
            return None;
        }
        self.0 = rest;
        Some(word)
    }

    /// A name, which may end at a `=`.
    pub fn left_side(&mut self) -> Option<&'a [u8]>
        ensures none { IfNone result (left_side_at self.old.0.now ≡ None) }
        ensures some { IfSome result (λ name. left_side_at self.old.0.now ≡ Some (name.now, self.new.0.now)) }
    {
        let (name, rest) = split_name(after_gaps(self.0));
        if name.is_empty() {
            return None;
        }
        self.0 = rest;
        Some(name)
    }

    /// A number.
    pub fn number(&mut self) -> Option<i64>
        ensures none { IfNone result (number_at self.old.0.now ≡ None) }
        ensures some { IfSome result (λ number. number_at self.old.0.now ≡ Some (number, self.new.0.now)) }
    {
        number_of(self.word()?)
    }

    /// A number, which is 1 where none comes.
    pub fn number_or_one(&mut self) -> Option<i64>
        ensures none { IfNone result (number_or_one_at self.old.0.now ≡ None) }
        ensures some { IfSome result (λ number. number_or_one_at self.old.0.now ≡ Some (number, self.new.0.now)) }
    {
        if all_gaps(self.0) {
            self.0 = &[];
            return Some(1);
        }
        self.number()
    }

    /// The text after a `=`, to the end of the line.
    pub fn right_side(&mut self) -> Option<&'a [u8]>
        ensures none { IfNone result (right_side_at self.old.0.now ≡ None) }
        ensures some { IfSome result (λ text. right_side_at self.old.0.now ≡ Some (text.now, self.new.0.now)) }
    {
        match after_gaps(self.0) {
            [b'=', text @ ..] => {
                self.0 = &[];
                Some(after_blanks(text))
            }
            _ => None,
        }
    }

    /// A text, to the end of the line.
    pub fn text(&mut self) -> Option<&'a [u8]>
        ensures none { IfNone result (text_at self.old.0.now ≡ None) }
        ensures some { IfSome result (λ text. text_at self.old.0.now ≡ Some (text.now, self.new.0.now)) }
    {
        let text = after_gaps(self.0);
        if text.is_empty() {
            return None;
        }
        self.0 = &[];
        Some(text)
    }

    /// Whether nothing more comes.
    pub fn is_over(&self) -> bool
        ensures { result ≡ list_all is_gap self.now.0.now }
    {
        all_gaps(self.0)
    }
}
