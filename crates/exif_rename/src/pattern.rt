//! Patterns of names, as `%Y/%m/%Y%m%d_%H%M%S` and `{Model}_{Name}`.

ghost use Rattle.std.specs.Prelude.{◌≡◌, [], IfOk};
ghost use Rattle.exif_rename.specs.Views.{ok_as};
ghost use Rattle.std.specs.Str.{chars};
ghost use Rattle.exif_rename.specs.Patterns.{brace_part, close_part, is_no_name, letter_part, no_name, part_at, parts_in, parsed, parts_of, percent_part};

use std::alloc::{AllocError, Global};
use std::fmt;

/// A pattern that file names are made by.
#[derive(Debug, Drop)]
pub struct Pattern {
    // its parts, in order
    pub(crate) parts: Vec<Part>,
}

/// A part of a pattern.
#[derive(Clone, Copy, Debug, PartialEq, Eq)]
pub enum Part {
    /// A character that stays as it is.
    Literal(char),
    /// Digits of the date.
    Date(DatePart),
    /// The make of the camera.
    Make,
    /// Its model.
    Model,
    /// The old name without its extension.
    Name,
}

/// Digits of a date.
#[derive(Clone, Copy, Debug, PartialEq, Eq)]
pub enum DatePart {
    /// The year, at least four digits.
    Year,
    /// Its last two digits.
    ShortYear,
    /// The month, two digits.
    Month,
    /// The day of the month, two digits.
    Day,
    /// The hour, two digits.
    Hour,
    /// The minute, two digits.
    Minute,
    /// The second, two digits.
    Second,
}

/// What is wrong in a pattern.
#[derive(Clone, Copy, Debug, PartialEq, Eq)]
pub enum Fault {
    /// It is empty.
    Empty,
    /// A `%` ends it.
    PercentAtEnd,
    /// A letter after `%` that stands for nothing.
    UnknownLetter,
    /// A name in braces that stands for nothing.
    UnknownName,
    /// A `{` without its `}`.
    UnclosedBrace,
    /// A `}` without its `{`.
    LoneBrace,
    /// A name between slashes that is empty, `.` or `..`.
    NoName,
}

/// Why a text is no pattern.
#[derive(Clone, Copy, Debug, PartialEq, Eq)]
pub struct PatternError {
    /// What is wrong.
    pub fault: Fault,
    /// Where: how many characters are before it.
    pub at: usize,
}

impl fmt::Display for PatternError {
    ghost use Rattle.std.specs.Prelude.{Some};
    ghost use Rattle.exif_rename.specs.Texts.{pattern_text};

    ghost output = { λ error. Some (pattern_text error) };

    fn fmt<W: fmt::Write>(&self, f: &mut fmt::Formatter<W>) -> fmt::Result {
        let column = self.at.saturating_add(1);
        match self.fault {
            Fault::Empty => write!(f, "the pattern is empty"),
            Fault::PercentAtEnd => write!(f, "% at the end; write %% for a percent sign"),
            Fault::UnknownLetter => write!(
                f,
                "character {column}: unknown % letter; expected %Y %y %m %d %H %M %S or %%"
            ),
            Fault::UnknownName => write!(
                f,
                "character {column}: unknown name in braces; use {{Make}}, {{Model}} or {{Name}}"
            ),
            Fault::UnclosedBrace => write!(f, "character {column}: this brace is not closed"),
            Fault::LoneBrace => write!(f, "character {column}: write }}}} for a brace"),
            Fault::NoName => write!(
                f,
                "character {column}: a name between slashes is empty, '.' or '..'"
            ),
        }
    }
}

impl Pattern {
    /// Reads a pattern: `%Y %y %m %d %H %M %S` are parts of the date, `{Make}`, `{Model}` and
    /// `{Name}` texts, `%%`, `{{` and `}}` a percent sign and braces, and `/` separates folders.
    /// It takes four bytes for each character, and eight for each part.
    pub fn parse(alloc: Global, text: &str) -> Result<Result<Pattern, PatternError>, AllocError>
        ensures { IfOk result (λ answer.
            ok_as parts_of answer ≡ parsed (chars text.now)) }
    {
        let chars = chars_of(alloc, text)?;
        let chars = chars.as_slice();
        if chars.is_empty() {
            return Ok(Err(PatternError {
                fault: Fault::Empty,
                at: 0,
            }));
        }
        let parts = match parts_in(alloc, chars)? {
            Ok(parts) => parts,
            Err(error) => return Ok(Err(error)),
        };
        match no_name(chars) {
            Some(at) => Ok(Err(PatternError {
                fault: Fault::NoName,
                at,
            })),
            None => Ok(Ok(Pattern { parts })),
        }
    }
}

// The characters of a text.
pub(crate) fn chars_of(alloc: Global, text: &str) -> Result<Vec<char>, AllocError>
    ensures { IfOk result (λ all. all.items ≡ chars text.now) }
{
    text.chars().collect(alloc)
}

// The parts of a pattern.
fn parts_in(alloc: Global, all: &[char]) -> Result<Result<Vec<Part>, PatternError>, AllocError>
    ensures { IfOk result (λ answer.
        ok_as (λ parts. parts.items) answer ≡ parts_in 0 0 all.now) }
{
    let mut parts = Vec::new(alloc);
    let mut taken: usize = 0;
    for (at, first) in all.iter().enumerate() {
        if taken > 0 {
            taken -= 1;
            continue;
        }
        match part_at(*first, &all[at + 1..]) {
            Ok((part, more)) => {
                parts.push(part)?;
                taken = more;
            }
            Err(fault) => return Ok(Err(PatternError { fault, at })),
        }
    }
    Ok(Ok(parts))
}

// The part that begins with a character, and how many more it takes.
fn part_at(first: char, rest: &[char]) -> Result<(Part, usize), Fault>
    ensures { result ≡ part_at first rest.now }
{
    match first {
        '%' => percent_part(rest),
        '{' => brace_part(rest),
        '}' => close_part(rest),
        _ => Ok((Part::Literal(first), 0)),
    }
}

// The part of a letter after `%`.
fn letter_part(letter: char) -> Option<Part>
    ensures { result ≡ letter_part letter }
{
    match letter {
        'Y' => Some(Part::Date(DatePart::Year)),
        'y' => Some(Part::Date(DatePart::ShortYear)),
        'm' => Some(Part::Date(DatePart::Month)),
        'd' => Some(Part::Date(DatePart::Day)),
        'H' => Some(Part::Date(DatePart::Hour)),
        'M' => Some(Part::Date(DatePart::Minute)),
        'S' => Some(Part::Date(DatePart::Second)),
        '%' => Some(Part::Literal('%')),
        _ => None,
    }
}

// The part after `%`.
fn percent_part(rest: &[char]) -> Result<(Part, usize), Fault>
    ensures { result ≡ percent_part rest.now }
{
    let Some(letter) = rest.first() else {
        return Err(Fault::PercentAtEnd);
    };
    match letter_part(*letter) {
        Some(part) => Ok((part, 1)),
        None => Err(Fault::UnknownLetter),
    }
}

// The part after `{`.
fn brace_part(rest: &[char]) -> Result<(Part, usize), Fault>
    ensures { result ≡ brace_part rest.now }
{
    if rest.starts_with(&['{']) {
        return Ok((Part::Literal('{'), 1));
    }
    if rest.starts_with(&['M', 'a', 'k', 'e', '}']) {
        return Ok((Part::Make, 5));
    }
    if rest.starts_with(&['M', 'o', 'd', 'e', 'l', '}']) {
        return Ok((Part::Model, 6));
    }
    if rest.starts_with(&['N', 'a', 'm', 'e', '}']) {
        return Ok((Part::Name, 5));
    }
    if rest.contains(&'}') {
        return Err(Fault::UnknownName);
    }
    Err(Fault::UnclosedBrace)
}

// The part after `}`.
fn close_part(rest: &[char]) -> Result<(Part, usize), Fault>
    ensures { result ≡ close_part rest.now }
{
    if rest.starts_with(&['}']) {
        return Ok((Part::Literal('}'), 1));
    }
    Err(Fault::LoneBrace)
}

// Where the first name between slashes begins that is empty, `.` or `..`.
fn no_name(all: &[char]) -> Option<usize>
    ensures { result ≡ no_name 0 [] all.now }
{
    let mut start = 0;
    for (at, c) in all.iter().enumerate() {
        if *c == '/' {
            if is_no_name(&all[start..at]) {
                return Some(start);
            }
            start = at + 1;
        }
    }
    if is_no_name(&all[start..]) {
        Some(start)
    } else {
        None
    }
}

// Whether a name is empty, `.` or `..`.
fn is_no_name(name: &[char]) -> bool
    ensures { result ≡ is_no_name name.now }
{
    match name {
        [] => true,
        [first] => *first == '.',
        [first, second] => *first == '.' && *second == '.',
        _ => false,
    }
}
