//! The command line, as the system hands it over: bytes that need not be text.
use nz_base::Memory;
use std::alloc::Global;
use std::env::{Env, FillError};

/// The program's own name, whatever it was called by.
const NAME: &str = "nuz";

/// The room that a word is given first, in bytes.
const ROOM: usize = 256;

/// The words of the command line, or `None` where one of them isn't UTF-8. The program's name stands first, and is always
/// the same.
///
/// # Errors
///
/// `Memory` where there is no memory for them.
pub fn words_of<E: Env>(env: &E, alloc: Global) -> Result<Option<Vec<String>>, Memory> {
    let mut words = Vec::new(alloc);
    words.push(String::from_str(alloc, NAME)?)?;
    for place in 1..usize::MAX {
        let Some(bytes) = word_at(env, alloc, place)? else {
            break;
        };
        match String::from_utf8(bytes) {
            Ok(word) => words.push(word)?,
            Err(_) => return Ok(None),
        }
    }
    Ok(Some(words))
}

/// The word at this place, or `None` behind the last one.
fn word_at<E: Env>(env: &E, alloc: Global, place: usize) -> Result<Option<Vec<u8>>, Memory> {
    let mut word = vec![in alloc; 0; ROOM]?;
    // Twice the room each time, until the word fits or there is no memory for more.
    for _ in 0..usize::BITS {
        match env.arg(place, word.as_mut_slice()) {
            Ok(length) => {
                word.truncate(length);
                return Ok(Some(word));
            }
            Err(FillError::NotPresent) => return Ok(None),
            Err(FillError::TooLong) => word.resize(word.len().saturating_mul(2), 0)?,
        }
    }
    Err(Memory)
}
