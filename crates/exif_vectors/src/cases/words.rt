//! The words of a line: plain ones, and texts in quotes with the escapes of Rust.

use crate::cases::error::CaseError;
use std::alloc::Global;
use std::{mem, str};

/// A word of a line.
#[derive(Drop)]
pub struct Word {
    /// Whether it is in quotes.
    pub is_text: bool,
    /// Its bytes.
    pub bytes: Vec<u8>,
}

impl Word {
    /// The word, or nothing where it is in quotes.
    pub fn plain(&self) -> &str {
        if self.is_text {
            return "";
        }
        str::from_utf8(self.bytes.as_slice()).unwrap_or("")
    }
}

/// Bytes with a name.
#[derive(Drop)]
pub struct Named {
    /// The name.
    pub name: String,
    /// Its bytes.
    pub bytes: Vec<u8>,
}

#[derive(Clone, Copy)]
enum State {
    Between,
    Plain,
    Text,
    Escape,
    High,
    Low(u8),
}

#[derive(Drop)]
struct Scanner {
    alloc: Global,
    words: Vec<Word>,
    current: Vec<u8>,
    state: State,
}

impl Scanner {
    // Ends a word.
    fn finish(&mut self, is_text: bool) -> Result<(), CaseError> {
        let bytes = mem::replace(&mut self.current, Vec::new(self.alloc));
        self.words.push(Word { is_text, bytes })?;
        self.state = State::Between;
        Ok(())
    }

    // Keeps a byte of a word.
    fn keep(&mut self, byte: u8, state: State) -> Result<(), CaseError> {
        self.current.push(byte)?;
        self.state = state;
        Ok(())
    }

    fn step(&mut self, byte: u8) -> Result<(), CaseError> {
        match self.state {
            State::Between => match byte {
                b' ' => Ok(()),
                b'"' => {
                    self.state = State::Text;
                    Ok(())
                }
                _ => self.keep(byte, State::Plain),
            },
            State::Plain => match byte {
                b' ' => self.finish(false),
                _ => self.keep(byte, State::Plain),
            },
            State::Text => match byte {
                b'"' => self.finish(true),
                b'\\' => {
                    self.state = State::Escape;
                    Ok(())
                }
                _ => self.keep(byte, State::Text),
            },
            _ => self.escaped(byte),
        }
    }

    fn escaped(&mut self, byte: u8) -> Result<(), CaseError> {
        match self.state {
            State::High => {
                self.state = State::Low(digit(byte)?);
                Ok(())
            }
            State::Low(high) => {
                let low = digit(byte)?;
                self.keep((high << 4) | low, State::Text)
            }
            _ => match byte {
                b'x' => {
                    self.state = State::High;
                    Ok(())
                }
                b'0' => self.keep(0, State::Text),
                b'n' => self.keep(b'\n', State::Text),
                b'"' | b'\\' => self.keep(byte, State::Text),
                _ => Err(CaseError::Line("no such escape")),
            },
        }
    }
}

// The value of a hexadecimal digit.
fn digit(byte: u8) -> Result<u8, CaseError> {
    match byte {
        b'0'..=b'9' => Ok(byte - b'0'),
        b'a'..=b'f' => Ok(byte - b'a' + 10),
        _ => Err(CaseError::Line("no hexadecimal digit")),
    }
}

/// The words of a line.
pub fn words_of(alloc: Global, line: &str) -> Result<Vec<Word>, CaseError> {
    let mut scanner = Scanner {
        alloc,
        words: Vec::new(alloc),
        current: Vec::new(alloc),
        state: State::Between,
    };
    for byte in line.as_bytes() {
        scanner.step(*byte)?;
    }
    match scanner.state {
        State::Between => {}
        State::Plain => scanner.finish(false)?,
        _ => return Err(CaseError::Line("a text without its end")),
    }
    Ok(scanner.words)
}

/// The bytes of terms in a row: texts, names, parts of names as `NAME[2..9]`, and `*20` behind a
/// term that comes twenty times.
pub fn bytes_of(alloc: Global, names: &[Named], words: &[Word]) -> Result<Vec<u8>, CaseError> {
    let mut all = Vec::new(alloc);
    let mut last: &[u8] = b"";
    for word in words {
        match word.plain().strip_prefix('*') {
            Some(count) => repeat(&mut all, last, number(count)?)?,
            None => {
                last = term(names, word)?;
                all.extend_from_slice(last)?;
            }
        }
    }
    Ok(all)
}

// Appends a term, which is there once, until it is there so many times.
fn repeat(all: &mut Vec<u8>, term: &[u8], count: usize) -> Result<(), CaseError> {
    for _ in 1..count {
        all.extend_from_slice(term)?;
    }
    Ok(())
}

/// A whole number.
pub fn number(text: &str) -> Result<usize, CaseError> {
    match text.parse::<usize>() {
        Ok(number) => Ok(number),
        Err(_) => Err(CaseError::Line("no number")),
    }
}

// The bytes of a term.
fn term<'a>(names: &'a [Named], word: &'a Word) -> Result<&'a [u8], CaseError> {
    if word.is_text {
        return Ok(word.bytes.as_slice());
    }
    match word.plain().split_once('[') {
        None => meaning(names, word.plain()),
        Some((name, range)) => part(meaning(names, name)?, range),
    }
}

// The bytes of a name.
fn meaning<'a>(names: &'a [Named], name: &str) -> Result<&'a [u8], CaseError> {
    for known in names {
        if known.name.as_str() == name {
            return Ok(known.bytes.as_slice());
        }
    }
    Err(CaseError::Line("no such name"))
}

// A part of bytes, as `2..9]`, `2..]` or `..9]`.
fn part<'a>(bytes: &'a [u8], range: &str) -> Result<&'a [u8], CaseError> {
    let Some((from, to)) = range.trim_end_matches(']').split_once("..") else {
        return Err(CaseError::Line("no range"));
    };
    let from = if from.is_empty() { 0 } else { number(from)? };
    let to = if to.is_empty() {
        bytes.len()
    } else {
        number(to)?
    };
    bytes
        .get(from..to)
        .ok_or(CaseError::Line("a range past the end"))
}
