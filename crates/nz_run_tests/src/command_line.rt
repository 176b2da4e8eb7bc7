//! Of `nz_run`: the words of the command line, from a system that isn't there.
use crate::checks::{holds, is, is_bytes};
use nz_base::Memory;
use nz_run::words_of;
use std::alloc::Global;
use std::env::{Env, FillError};
use std::process::Abort;
use std::test::Fail;

/// A command line of these words, the program's name first.
#[derive(Clone, Copy)]
struct CommandLine<'a> {
    words: &'a [&'a [u8]],
}

impl Env for CommandLine<'_> {
    fn arg(&self, i: usize, buf: &mut [u8]) -> Result<usize, FillError> {
        let Some(word) = self.words.get(i) else {
            return Err(FillError::NotPresent);
        };
        let Some(front) = buf.get_mut(..word.len()) else {
            return Err(FillError::TooLong);
        };
        front.copy_from_slice(word);
        Ok(word.len())
    }

    fn var(&self, _name: &str, _buf: &mut [u8]) -> Result<usize, FillError> {
        Err(FillError::NotPresent)
    }

    fn var_at(&self, _i: usize, _buf: &mut [u8]) -> Result<usize, FillError> {
        Err(FillError::NotPresent)
    }
}

/// The words that are read from a command line, unless one is refused.
fn read(alloc: Global, words: &[&[u8]]) -> Result<Option<Vec<String>>, Memory> {
    words_of(&CommandLine { words }, alloc)
}

/// These words are read from a command line.
fn reads(rt: &impl Abort, alloc: Global, words: &[&[u8]], want: &[&[u8]]) -> Result<(), Fail> {
    let read = read(alloc, words)?.ok_or("a word is refused")?;
    is(rt, read.len(), want.len());
    for (word, wanted) in read.iter().zip(want) {
        is_bytes(rt, word.as_bytes(), wanted);
    }
    Ok(())
}

#[test]
fn test_the_program_may_be_called_by_any_name(rt: HostRuntime) -> Result<(), Fail> {
    let want: &[&[u8]] = &[b"nuz", b"solve"];
    reads(&rt, rt.alloc(), &[b"nuz", b"solve"], want)?;
    reads(&rt, rt.alloc(), &[b"", b"solve"], want)?;
    reads(&rt, rt.alloc(), &[b"\xff", b"solve"], want)?;
    reads(&rt, rt.alloc(), &[], &[b"nuz"])
}

#[test]
fn test_a_word_that_is_not_text_is_refused(rt: HostRuntime) -> Result<(), Fail> {
    let words = read(rt.alloc(), &[b"nuz", b"solve", b"caf\xe9"])?;
    holds(&rt, words.is_none(), "refused");
    Ok(())
}

/// A word of this length comes whole.
fn comes_whole(rt: &impl Abort, alloc: Global, length: usize) -> Result<(), Fail> {
    let long = vec![in alloc; b'a'; length]?;
    reads(
        rt,
        alloc,
        &[b"nuz", long.as_slice()],
        &[b"nuz", long.as_slice()],
    )
}

#[test]
fn test_a_word_of_any_length_comes_whole(rt: HostRuntime) -> Result<(), Fail> {
    for length in [0, 255, 256, 257, 1000] {
        comes_whole(&rt, rt.alloc(), length)?;
    }
    Ok(())
}
