//! What was found of the options, by their names.

ghost use Rattle.std.specs.Prelude.{◌≡◌, IfOk, is_some};
ghost use Rattle.exif_files.specs.Names.{name_if};
ghost use Rattle.exif_arguments.specs.Given.{flag_in, is_named, limit_by, limit_in, number_in, text_in, text_or_empty, texts, words_in};

use clap::ArgMatches;
use exif_change::ENTRY_LIMIT;
use std::alloc::{AllocError, Global};

/// The text of an option, the first if it is given several times; nothing where it is not given.
pub fn text_of<'a>(matches: &ArgMatches<'a>, id: &str) -> Option<&'a str>
    ensures { name_if result ≡ text_in matches.now id.now }
{
    matches.get_str(id)
}

/// The same, or an empty text.
pub fn text_or_empty<'a>(matches: &ArgMatches<'a>, id: &str) -> &'a str
    ensures { result.now ≡ text_or_empty matches.now id.now }
{
    match text_of(matches, id) {
        Some(text) => text,
        None => "",
    }
}

/// Whether a text is given.
pub fn has_text(matches: &ArgMatches<'_>, id: &str) -> bool
    ensures { result ≡ is_some (text_in matches.now id.now) }
{
    text_of(matches, id).is_some()
}

/// Whether a flag is given: what was found under its name is `true`.
pub fn is_set(matches: &ArgMatches<'_>, id: &str) -> bool
    ensures { result ≡ flag_in matches.now id.now }
{
    match text_of(matches, id) {
        Some(text) => text == "true",
        None => false,
    }
}

/// Whether an option with several texts is given.
#[tactic(auto, unfolding(crate::specs::Given::is_named))]
pub fn is_named(matches: &ArgMatches<'_>, id: &str) -> bool
    ensures { result ≡ is_named matches.now id.now }
{
    matches.contains_id(id)
}

/// All texts of an option, of all its uses; none where it is not given.
#[tactic(auto, unfolding(crate::specs::Given::words_in))]
pub fn words_at<'a>(
    alloc: Global,
    matches: &ArgMatches<'a>,
    id: &str,
) -> Result<Vec<&'a str>, AllocError>
    ensures { IfOk result (λ words. texts words.items ≡ words_in matches.now id.now) }
{
    match matches.get_strs(id) {
        Some(words) => Vec::from_slice(alloc, words),
        None => Ok(Vec::new(alloc)),
    }
}

// The number that a text spells, if it is one of 64 bits.
fn number_in(text: &str) -> Option<u64>
    ensures { result ≡ number_in text.now }
{
    match text.parse::<u64>() {
        Ok(number) => Some(number),
        Err(_error) => None,
    }
}

// How many entries are read at most by the text of an option.
fn limit_by(text: Option<&str>) -> u64
    ensures { result ≡ limit_by (name_if text.entry) }
{
    let Some(text) = text else {
        return ENTRY_LIMIT;
    };
    match number_in(text) {
        Some(limit) => limit,
        None => ENTRY_LIMIT,
    }
}

/// How many entries are read at most: a million where the option does not say another number.
pub fn limit_of(matches: &ArgMatches<'_>) -> u64
    ensures { result ≡ limit_in matches.now }
{
    limit_by(text_of(matches, "limit"))
}
