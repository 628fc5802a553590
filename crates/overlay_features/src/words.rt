//! The words that the program is called with.
use fault_texts::CommonFault;

/// What the words ask for: replies as lines of text, and the most bytes of a block.
#[derive(Clone, Copy, Debug)]
pub struct Asked {
    pub is_text: bool,
    pub memory: u64,
}

/// A number of 1 to 15 digits.
fn number(word: &[u8]) -> Option<u64> {
    if word.is_empty() || word.len() > 15 {
        return None;
    }
    let mut found: u64 = 0;
    for digit in word {
        if *digit < b'0' || *digit > b'9' {
            return None;
        }
        found = found
            .saturating_mul(10)
            .saturating_add(u64::from(digit.saturating_sub(b'0')));
    }
    Some(found)
}

/// What one more word asks for; `wants_number` says that the word before it wants a number.
fn read_word(asked: &mut Asked, wants_number: &mut bool, word: &[u8]) -> Result<(), CommonFault> {
    if *wants_number {
        let Some(memory) = number(word) else {
            return Err(CommonFault::Words);
        };
        asked.memory = memory;
        *wants_number = false;
        return Ok(());
    }
    if word == b"--text".as_slice() {
        asked.is_text = true;
    } else if word == b"--memory".as_slice() {
        *wants_number = true;
    } else {
        return Err(CommonFault::Words);
    }
    Ok(())
}

/// What some words ask for, if they are those of the synopsis: `[--text] [--memory BYTES]`.
pub fn read_words(words: &[String]) -> Result<Asked, CommonFault> {
    let mut found = Asked {
        is_text: false,
        memory: 1099511627776,
    };
    let mut wants_number = false;
    for word in words {
        read_word(&mut found, &mut wants_number, word.as_bytes())?;
    }
    if wants_number {
        Err(CommonFault::Words)
    } else {
        Ok(found)
    }
}
