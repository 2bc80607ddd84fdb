//! The lines that a run writes of what it did, which can be read again.

ghost use Rattle.std.specs.Prelude.{◌≡◌, ◌≤◌, ◌<◌, ◌+◌, ◌++◌, ℕ, List, Bool, IfOk, OnOk, Some, drop, length, string_bytes};
ghost use Rattle.std.specs.Char.{digit_char};
ghost use Rattle.std.specs.Option.{MatchOption, option_map};
ghost use Rattle.std.specs.Str.{IsUtf8};
ghost use Rattle.exif_rename.specs.Undo.{IsOfLine, char_at, coded, escape, is_coded, line_of, mark, read, step_of, written};

use crate::pattern::chars_of;
use std::alloc::{AllocError, Global};

/// What a run did with a file.
#[derive(Debug, Drop)]
pub struct Step {
    /// The path that it had.
    pub from: String,
    /// The path that it got.
    pub to: String,
    /// Whether the file was copied, and is there by both.
    pub copied: bool,
}

/// The line of a file that was moved, `FROM -> TO`, or copied, `FROM => TO`. In both paths a
/// control character, `\` and `>` are written as `\x` and the two digits of their code, so that no
/// path looks like another line. It takes the memory of the line, twice.
pub fn write_line(alloc: Global, from: &str, to: &str, copied: bool) -> Result<String, AllocError>
    ensures line { IfOk result (λ line.
        string_bytes line ≡ line_of copied from.now to.now) }
{
    let from = written(alloc, from)?;
    let to = written(alloc, to)?;
    if copied {
        return format!(in alloc; "{from} => {to}");
    }
    format!(in alloc; "{from} -> {to}")
}

/// What the run did that wrote a line; nothing where no run writes such a line. It takes the memory
/// of the line, and four bytes for each of its characters.
pub fn parse_line(alloc: Global, line: &str) -> Result<Option<Step>, AllocError>
    ensures back { IfOk result (λ step. (copied : Bool) (from to : List ℕ)
        → IsUtf8 from → IsUtf8 to → line.now ≡ line_of copied from to
        → option_map step_of step ≡ Some (copied, (from, to))) }
    ensures only { IfOk result (λ step. IsOfLine line.now step) }
{
    let Some(step) = read_step(alloc, line)? else {
        return Ok(None);
    };
    let again = write_line(alloc, step.from.as_str(), step.to.as_str(), step.copied)?;
    if again.as_str() != line {
        return Ok(None);
    }
    Ok(Some(step))
}

// What a line that a run wrote says; of another line nothing, or anything.
fn read_step(alloc: Global, line: &str) -> Result<Option<Step>, AllocError>
    ensures { IfOk result (λ step. (copied : Bool) (from to : List ℕ)
        → IsUtf8 from → IsUtf8 to → line.now ≡ line_of copied from to
        → option_map step_of step ≡ Some (copied, (from, to))) }
{
    let all = chars_of(alloc, line)?;
    let (front, end) = read_path(alloc, all.as_slice())?;
    // behind `> `
    let rest = tail(tail(all.as_slice(), end), 2);
    let (to, _) = read_path(alloc, rest)?;
    let Some((from, copied)) = without_mark(front.as_str()) else {
        return Ok(None);
    };
    let from = String::from_str(alloc, from)?;
    Ok(Some(Step { from, to, copied }))
}

// A path as a line has it.
fn written(alloc: Global, path: &str) -> Result<String, AllocError>
    ensures { IfOk result (λ text. string_bytes text ≡ written path.now) }
{
    let all = chars_of(alloc, path)?;
    let mut text = String::new(alloc);
    for c in &all {
        push_coded(&mut text, *c)?;
    }
    Ok(text)
}

// Adds a character as a line has it.
fn push_coded(text: &mut String, c: char) -> Result<(), AllocError>
    ensures { OnOk result (string_bytes text.new ≡ string_bytes text.old ++ coded c) }
{
    if !is_coded(c) {
        return text.push(c);
    }
    let code = u32::from(c);
    text.push_str("\\x")?;
    text.push(digit(code / 16))?;
    text.push(digit(code % 16))
}

// Whether a line has the code of a character in its place.
fn is_coded(c: char) -> bool
    ensures { result ≡ is_coded c }
{
    matches!(c, '\0'..='\x1f' | '\x7f'..='\u{9f}' | '\\' | '>')
}

// A hexadecimal digit.
fn digit(value: u32) -> char
    ensures { value < 16 → result ≡ digit_char value }
{
    char::from_digit(value, 16).unwrap_or('0')
}

// The path that characters begin with, and where it ends: before a `>`, or a `\` that begins no
// code.
fn read_path(alloc: Global, all: &[char]) -> Result<(String, usize), AllocError>
    ensures path { IfOk result (λ found.
        read 0 all.now ≡ (string_bytes found.0, drop found.1 all.now)) }
{
    let mut path = String::new(alloc);
    let mut taken: usize = 0;
    for (at, first) in all.iter().enumerate() {
        if taken > 0 {
            taken -= 1;
            continue;
        }
        let Some((c, more)) = char_at(*first, &all[at + 1..]) else {
            return Ok((path, at));
        };
        path.push(c)?;
        taken = more;
    }
    Ok((path, all.len()))
}

// The character that a path has next, and how many more it takes.
fn char_at(first: char, rest: &[char]) -> Option<(char, usize)>
    ensures { result ≡ char_at first rest.now }
{
    match first {
        '>' => None,
        '\\' => escape(rest),
        _ => Some((first, 0)),
    }
}

// The character whose code follows a `\`.
fn escape(rest: &[char]) -> Option<(char, usize)>
    ensures { result ≡ escape rest.now }
{
    match rest {
        ['x', high, low, ..] => {
            let high = high.to_digit(16)?;
            let low = low.to_digit(16)?;
            Some((char::from((high * 16 + low) as u8), 3))
        }
        _ => None,
    }
}

// Characters from an index on.
fn tail(all: &[char], at: usize) -> &[char]
    ensures { result.now ≡ drop at all.now }
{
    if at < all.len() { &all[at..] } else { &[] }
}

// A path without the mark behind it, and whether that is of a copy.
fn without_mark(front: &str) -> Option<(&str, bool)>
    ensures { (copied : Bool) (path : List ℕ) → front.now ≡ path ++ mark copied
        → MatchOption result ⊥ (λ found. (found.0.now ≡ path) × (found.1 ≡ copied)) }
{
    if let Some(path) = front.strip_suffix(" -") {
        return Some((path, false));
    }
    Some((front.strip_suffix(" =")?, true))
}
