//! The words of the command line.

ghost use Rattle.std.specs.Prelude.{◌≡◌, ℕ, List, IfOk, IfSome, Ok, map, string_bytes};
ghost use Rattle.exif_decisions.specs.Escaping.{readable};
ghost use Rattle.mexaldor.specs.Line.{is_set, kinds_of, len_by, spelled_word, words_for};

use exif_decisions::{canonical_word, is_assignment, readable};
use std::alloc::{AllocError, Global};
use std::env::FillError;
use std::io::{self, ErrorKind};
use std::rt::Env;

// How long a word of a command line is at most on Linux.
const LONGEST: usize = 131_072;

/// The words of the command line. A word that is no UTF-8 is as [`readable`] writes it, so that its
/// file can be named, though it can't be opened. The assignments of `set` have the names of tags as
/// the standard spells them.
pub fn words(rt: &HostRuntime) -> io::Result<Vec<String>>
    ensures { IfOk result (λ all. (given : List (List ℕ))
        × (map string_bytes all.items ≡ words_for (map readable given))) }
{
    let mut words = Vec::new(rt.alloc());
    let mut word = Vec::new(rt.alloc());
    word.resize(LONGEST, 0)?;
    'words: for index in 0..usize::MAX {
        let Some(len) = len_by(rt.arg(index, word.as_mut_slice()))? else {
            break;
        };
        words.push(readable(rt.alloc(), &word[..len])?)?;
    }
    Ok(words_for(rt.alloc(), words)?)
}

// How long a word is that was asked for, if there is one; or that it is too long.
fn len_by(filled: Result<usize, FillError>) -> io::Result<Option<usize>>
    ensures kinds { kinds_of result ≡ len_by filled }
    ensures len { IfOk result (λ found. IfSome found (λ len. filled ≡ Ok len)) }
{
    match filled {
        Ok(len) => Ok(Some(len)),
        Err(FillError::NotPresent) => Ok(None),
        Err(FillError::TooLong) => Err(io::Error::from(ErrorKind::ArgumentListTooLong)),
    }
}

// The words, by the subcommand that they name.
fn words_for(alloc: Global, words: Vec<String>) -> Result<Vec<String>, AllocError>
    ensures { IfOk result (λ all. map string_bytes all.items
        ≡ words_for (map string_bytes words.items)) }
{
    if is_set(words.as_slice()) {
        return spelled(alloc, words.as_slice());
    }
    Ok(words)
}

// Whether the word behind the name of the program is `set`.
fn is_set(words: &[String]) -> bool
    ensures { result ≡ is_set (map string_bytes words.now) }
{
    match words {
        [_program, command, ..] => command.as_str() == "set",
        _ => false,
    }
}

// A word of `set`: an assignment has the name of its tag as the standard spells it.
fn spelled_word(alloc: Global, word: &str) -> Result<String, AllocError>
    ensures { IfOk result (λ text. string_bytes text ≡ spelled_word word.now) }
{
    if is_assignment(word) {
        return canonical_word(alloc, word);
    }
    String::from_str(alloc, word)
}

// The words of `set`.
fn spelled(alloc: Global, words: &[String]) -> Result<Vec<String>, AllocError>
    ensures { IfOk result (λ all. map string_bytes all.items
        ≡ map spelled_word (map string_bytes words.now)) }
{
    let mut all = Vec::new(alloc);
    for word in words {
        all.push(spelled_word(alloc, word.as_str())?)?;
    }
    Ok(all)
}
