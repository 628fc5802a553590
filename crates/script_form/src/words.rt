//! Words, parted by spaces and tabs.
ghost use Rattle.std.specs.Prelude.{◌≡◌, ◌≤◌, length, take_while};
ghost use Rattle.std.specs.List.{list_all, prefix_len};
ghost use Rattle.overlay_terms.specs.Blank.{is_blank};
ghost use Rattle.script_form.specs.Lines.{is_gap};
ghost use Rattle.script_form.specs.Words.{is_word_byte, is_name_side, skip_while};

use overlay_terms::blank::is_blank;

/// Whether the byte is a space or a tab.
pub fn is_gap(byte: u8) -> bool
    ensures { result ≡ is_gap byte }
{
    matches!(byte, b' ' | b'\t')
}

fn is_word_byte(byte: u8) -> bool
    ensures { result ≡ is_word_byte byte }
{
    !is_gap(byte)
}

/// Whether the byte may be in a name before a `=`.
fn is_name_side(byte: u8) -> bool
    ensures { result ≡ is_name_side byte }
{
    !is_gap(byte) && byte != b'='
}

/// How many gaps the bytes begin with.
fn gap_count(bytes: &[u8]) -> usize
    ensures value { result ≡ prefix_len is_gap bytes.now }
    ensures within { result ≤ length bytes.now }
{
    bytes.iter().take_while(|b| is_gap(**b)).count()
}

/// How much white space the text begins with.
fn blank_count(text: &[u8]) -> usize
    ensures value { result ≡ prefix_len is_blank text.now }
    ensures within { result ≤ length text.now }
{
    text.iter().take_while(|b| is_blank(**b)).count()
}

/// How many bytes come before the first gap.
fn word_size(bytes: &[u8]) -> usize
    ensures value { result ≡ prefix_len is_word_byte bytes.now }
    ensures within { result ≤ length bytes.now }
{
    bytes.iter().take_while(|b| is_word_byte(**b)).count()
}

/// How many bytes come before the first gap or `=`.
fn name_size(bytes: &[u8]) -> usize
    ensures value { result ≡ prefix_len is_name_side bytes.now }
    ensures within { result ≤ length bytes.now }
{
    bytes.iter().take_while(|b| is_name_side(**b)).count()
}

/// The bytes from the first on that is no gap.
pub fn after_gaps(bytes: &[u8]) -> &[u8]
    ensures { result.now ≡ skip_while is_gap bytes.now }
{
    &bytes[gap_count(bytes)..]
}

/// The bytes from the first on that is no white space.
pub fn after_blanks(text: &[u8]) -> &[u8]
    ensures { result.now ≡ skip_while is_blank text.now }
{
    &text[blank_count(text)..]
}

/// What comes before the first gap, and what follows from it on.
pub fn split_word(bytes: &[u8]) -> (&[u8], &[u8])
    ensures word { result.0.now ≡ take_while is_word_byte bytes.now }
    ensures rest { result.1.now ≡ skip_while is_word_byte bytes.now }
{
    bytes.split_at(word_size(bytes))
}

/// What comes before the first gap or `=`, and what follows from it on.
pub fn split_name(bytes: &[u8]) -> (&[u8], &[u8])
    ensures name { result.0.now ≡ take_while is_name_side bytes.now }
    ensures rest { result.1.now ≡ skip_while is_name_side bytes.now }
{
    bytes.split_at(name_size(bytes))
}

/// Whether the bytes are gaps alone.
pub fn all_gaps(bytes: &[u8]) -> bool
    ensures { result ≡ list_all is_gap bytes.now }
{
    bytes.iter().all(|b| is_gap(*b))
}
