//! The words that a program is called with.
use crate::fault::WordFault;
use std::env;
use std::env::Env;
use std::io::ErrorKind;

/// The words after the program's name. One that is not UTF-8 is a wrong word.
pub fn own_words<Q: Env + AllocGlobal>(rt: &Q) -> Result<Vec<String>, WordFault> {
    match env::args(rt) {
        Ok(words) => {
            let mut rest = Vec::new(rt.alloc());
            for word in words.skip(1) {
                rest.push(word)?;
            }
            Ok(rest)
        }
        Err(error) if error.kind() == ErrorKind::OutOfMemory => Err(WordFault::OutOfMemory),
        Err(_) => Err(WordFault::Words),
    }
}
