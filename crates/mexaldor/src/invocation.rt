//! What the arguments request.

ghost use Rattle.std.specs.Prelude.{◌≡◌, ◌⊎◌, Ok, false, true, IfErr, IfOk, codes};
ghost use Rattle.clap.specs.Matches.{has_subcommand};
ghost use Rattle.clap.specs.Values.{kind_of};
ghost use Rattle.clap.specs.declared.error.kind.ErrorKind.TheVariants.{MissingSubcommand, OutOfMemory, ValueValidation};
ghost use Rattle.exif_arguments.specs.Given.{text_in};
ghost use Rattle.exif_arguments.specs.Views.{answer_by};
ghost use Rattle.mexaldor.specs.Invocations.{Asks, invocation_by, invocation_seen, or_output, page_asked, page_seen, query_asked};

use clap::error::ErrorKind;
use clap::{ArgMatches, Error};
use exif_arguments::{Answer, is_set, request_of, subcommand, text_of, text_or_empty};
use exif_session::{Paging, Request};
use std::alloc::{AllocError, Global};

/// What the arguments request.
#[derive(Drop)]
pub enum Invocation<'a> {
    /// The list of tags.
    Tags,
    /// A run over files.
    Run(Request<'a>),
    /// The answer of a catalogue, the first, to a query, the second.
    Query(&'a str, &'a str),
    /// The page of a catalogue.
    Page(Paging<'a>),
}

/// What the arguments request, or the error that shows how the subcommand is used.
pub fn parse_args<'a>(alloc: Global, found: &ArgMatches<'a>) -> Result<Invocation<'a>, Error>
    ensures parsed { IfOk result (λ invocation. Asks found.now (Ok (invocation_seen invocation))) }
    ensures missing { has_subcommand found.now ≡ false → IfErr result (λ error.
        (kind_of error ≡ OutOfMemory) ⊎ (kind_of error ≡ MissingSubcommand)) }
    ensures wrong { has_subcommand found.now ≡ true → IfErr result (λ error.
        (kind_of error ≡ OutOfMemory) ⊎ (kind_of error ≡ ValueValidation)) }
{
    let Some((name, matches)) = found.subcommand() else {
        return Err(missing(alloc)?);
    };
    match invocation_by(alloc, name, matches)? {
        Ok(invocation) => Ok(invocation),
        Err(wrong) => Err(refusal(alloc, name, wrong.as_str())?),
    }
}

// That there is no subcommand.
fn missing(alloc: Global) -> Result<Error, AllocError>
    ensures { IfOk result (λ error. kind_of error ≡ MissingSubcommand) }
{
    subcommand(alloc, "")?.error(ErrorKind::MissingSubcommand, "expected a subcommand")
}

// What is wrong with the words of a subcommand.
fn refusal(alloc: Global, name: &str, wrong: &str) -> Result<Error, AllocError>
    ensures { IfOk result (λ error. kind_of error ≡ ValueValidation) }
{
    subcommand(alloc, name)?.error(ErrorKind::ValueValidation, wrong)
}

// What a subcommand of this name asks for, or what is wrong with its words.
fn invocation_by<'a>(alloc: Global, name: &str, matches: &ArgMatches<'a>) -> Answer<Invocation<'a>>
    ensures { IfOk result (λ answer.
        answer_by invocation_seen answer ≡ invocation_by name.now matches.now) }
{
    match name {
        "tags" => Ok(Ok(Invocation::Tags)),
        "query" => Ok(Ok(query_of(matches))),
        "page" => Ok(Ok(Invocation::Page(paging_of(matches)))),
        _ => match request_of(alloc, name, matches)? {
            Ok(request) => Ok(Ok(Invocation::Run(request))),
            Err(wrong) => Ok(Err(wrong)),
        },
    }
}

fn query_of<'a>(matches: &ArgMatches<'a>) -> Invocation<'a>
    ensures { invocation_seen result ≡ query_asked matches.now }
{
    let database = text_or_empty(matches, "database");
    Invocation::Query(database, text_or_empty(matches, "sql"))
}

// Where the page is written.
fn output_of<'a>(matches: &ArgMatches<'a>) -> &'a str
    ensures { result.now ≡ or_output (text_in matches.now (codes "out")) }
{
    match text_of(matches, "out") {
        Some(out) => out,
        None => "-",
    }
}

fn paging_of<'a>(matches: &ArgMatches<'a>) -> Paging<'a>
    ensures { page_seen result ≡ page_asked matches.now }
{
    Paging {
        database: text_or_empty(matches, "database"),
        to: output_of(matches),
        force: is_set(matches, "force"),
    }
}
