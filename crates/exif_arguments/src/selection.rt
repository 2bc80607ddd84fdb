//! Which files are asked for, and which of their pictures.

ghost use Rattle.std.specs.Prelude.{◌≡◌, IfOk, codes, option_map, string_bytes};
ghost use Rattle.exif_decisions.specs.Asking.{fact_named, mistake_text};
ghost use Rattle.exif_files.specs.Names.{name_if};
ghost use Rattle.exif_arguments.specs.Choices.{are_facts, fact_wanted, choice_for, date_by, has_condition, is_fact, is_known, names_fact};
ghost use Rattle.exif_arguments.specs.Given.{text_in, texts, words_in};
ghost use Rattle.exif_arguments.specs.Requests.{but_last, files_wrong, keeping_for, last_of, reading_for, requested, takes_many};
ghost use Rattle.exif_arguments.specs.Views.{answer_by, answer_seen, choice_seen, task_seen};

use crate::given::{has_text, is_named, is_set, limit_of, text_of, words_at};
use clap::ArgMatches;
use exif_decisions::{Escaped, Fact, Mistake, fact_named, files_mistake, is_given};
use exif_session::{Keeping, Reading, Request, Task};
use exif_summary::{Choice, begin_of};
use std::alloc::{AllocError, Global};

/// What is wrong, in words.
pub type Wrong = String;

/// What is asked for, or what is wrong; or that memory ran out.
pub type Answer<T> = Result<Result<T, Wrong>, AllocError>;

/// The words after the options.
pub fn words_of<'a>(alloc: Global, matches: &ArgMatches<'a>) -> Result<Vec<&'a str>, AllocError>
    ensures { IfOk result (λ words. texts words.items ≡ words_in matches.now (codes "word")) }
{
    words_at(alloc, matches, "word")
}

/// Takes the last of some words out, and answers it.
pub fn take_last<'a>(words: &mut Vec<&'a str>) -> &'a str
    ensures last { result.now ≡ last_of (texts words.old.items) }
    ensures others { texts words.new.items ≡ but_last (texts words.old.items) }
{
    match words.pop() {
        Some(word) => word,
        None => "",
    }
}

/// What is wrong, in its words.
pub fn wrong(alloc: Global, mistake: Mistake) -> Result<Wrong, AllocError>
    ensures { IfOk result (λ text. string_bytes text ≡ mistake_text mistake) }
{
    String::from_str(alloc, mistake.text())
}

/// The request for something that is done with these files.
pub fn request<'a>(
    alloc: Global,
    task: Task<'a>,
    matches: &ArgMatches<'a>,
    paths: Vec<&'a str>,
) -> Answer<Request<'a>>
    ensures { IfOk result (λ answer. answer_seen answer
        ≡ requested (task_seen task.entry) (texts paths.entry.items) matches.now) }
{
    let choice = match choice_of(alloc, matches)? {
        Ok(choice) => choice,
        Err(wrong) => return Ok(Err(wrong)),
    };
    let names_from_input = is_set(matches, "null");
    if let Some(mistake) = mistake_of(paths.as_slice(), names_from_input, &choice) {
        return Ok(Err(wrong(alloc, mistake)?));
    }
    Ok(Ok(Request {
        choice,
        task,
        paths,
        names_from_input,
        recursive: is_set(matches, "recursive"),
        quiet: is_set(matches, "quiet"),
    }))
}

// What is wrong with files, by whether standard input names more, and the conditions.
fn mistake_of(paths: &[&str], from_input: bool, choice: &Choice<'_>) -> Option<Mistake>
    ensures { result
        ≡ files_wrong (texts paths.now) from_input (has_condition (choice_seen choice.now)) }
{
    files_mistake(paths, from_input, choice.is_any())
}

// Which pictures are processed.
fn choice_of<'a>(alloc: Global, matches: &ArgMatches<'a>) -> Answer<Choice<'a>>
    ensures { IfOk result (λ answer. answer_by choice_seen answer ≡ choice_for matches.now) }
{
    let after = match date_of(alloc, text_of(matches, "after"))? {
        Ok(after) => after,
        Err(wrong) => return Ok(Err(wrong)),
    };
    let before = match date_of(alloc, text_of(matches, "before"))? {
        Ok(before) => before,
        Err(wrong) => return Ok(Err(wrong)),
    };
    let required = words_at(alloc, matches, "where")?;
    let excluded = words_at(alloc, matches, "without")?;
    let (required, excluded) = (required.as_slice(), excluded.as_slice());
    let are_known = are_facts(required) && are_facts(excluded);
    if !are_known {
        return Ok(Err(wrong(alloc, Mistake::UnknownFact)?));
    }
    Ok(Ok(Choice {
        after,
        before,
        date: fact_wanted(Fact::Date, required, excluded),
        location: fact_wanted(Fact::Location, required, excluded),
        camera: camera_of(matches),
    }))
}

// The text that the camera's make or model contains.
fn camera_of<'a>(matches: &ArgMatches<'a>) -> Option<&'a [u8]>
    ensures { option_map (λ text. text.now) result ≡ text_in matches.now (codes "camera") }
{
    match text_of(matches, "camera") {
        Some(text) => Some(text.as_bytes()),
        None => None,
    }
}

// The time that an option names, if it is given.
fn date_of(alloc: Global, text: Option<&str>) -> Answer<Option<u64>>
    ensures { IfOk result (λ answer. answer_by (λ time. time) answer
        ≡ date_by (name_if text.entry)) }
{
    let Some(text) = text else {
        return Ok(Ok(None));
    };
    match begin_of(text) {
        Some(time) => Ok(Ok(Some(time))),
        None => {
            let text = Escaped(text);
            Ok(Err(format!(in alloc;
                "invalid date '{text}'; expected e.g. 2024-05-01 or 2024-05-01T12:30"
            )?))
        }
    }
}

// Whether a name is that of a fact.
fn is_fact(fact: Fact, name: &str) -> bool
    ensures { result ≡ is_fact fact (fact_named name.now) }
{
    match (fact, fact_named(name)) {
        (Fact::Date, Ok(Fact::Date)) => true,
        (Fact::Location, Ok(Fact::Location)) => true,
        _ => false,
    }
}

// Whether one of some names is that of a fact.
fn names_fact(fact: Fact, names: &[&str]) -> bool
    ensures { result ≡ names_fact fact (texts names.now) }
{
    for name in names {
        if is_fact(fact, *name) {
            return true;
        }
    }
    false
}

// What is asked of a fact by the names behind `--where` and those behind `--without`.
fn fact_wanted(fact: Fact, required: &[&str], excluded: &[&str]) -> Option<bool>
    ensures { result ≡ fact_wanted fact (texts required.now) (texts excluded.now) }
{
    if names_fact(fact, excluded) {
        return Some(false);
    }
    if names_fact(fact, required) {
        return Some(true);
    }
    None
}

// Whether a name is that of a fact.
fn is_known(name: &str) -> bool
    ensures { result ≡ is_known (fact_named name.now) }
{
    fact_named(name).is_ok()
}

// Whether each name is that of a fact.
fn are_facts(names: &[&str]) -> bool
    ensures { result ≡ are_facts (texts names.now) }
{
    for name in names {
        if !is_known(*name) {
            return false;
        }
    }
    true
}

/// Whether many files may be asked for.
pub fn takes_many(matches: &ArgMatches<'_>) -> bool
    ensures { result ≡ takes_many matches.now }
{
    is_given(&[
        is_set(matches, "recursive"),
        is_set(matches, "null"),
        has_text(matches, "after"),
        has_text(matches, "before"),
        has_text(matches, "camera"),
        is_named(matches, "where"),
        is_named(matches, "without"),
    ])
}

/// How files are read.
pub fn reading_of(matches: &ArgMatches<'_>, full: bool) -> Reading
    ensures { result ≡ reading_for matches.now full }
{
    Reading {
        strict: is_set(matches, "strict"),
        limit: limit_of(matches),
        full,
    }
}

/// What is kept of files that are replaced.
pub fn keeping_of(matches: &ArgMatches<'_>) -> Keeping
    ensures { result ≡ keeping_for matches.now }
{
    Keeping {
        backup: is_set(matches, "backup"),
        times: is_set(matches, "keep-time"),
    }
}
