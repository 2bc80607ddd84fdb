//! The last line of a run.

ghost use Rattle.std.specs.Prelude.{◌≡◌, ◌&&◌, nat_lt, Some, map};
ghost use Rattle.std.specs.Fmt.{WritesOnOk};
ghost use Rattle.std.specs.List.{list_any};
ghost use Rattle.exif_decisions.specs.Summaries.{amount_of, amount_text, between_kinds, format_amount, format_amounts, formats_text, listed, next_text, partial_text, plural, skipped_text, some_text, summary_text, thing, things};

use crate::counts::{Counts, FormatCounts};
use crate::formats::Unsupported;
use std::fmt;

/// The summary of a run, as `812 changed (3 not completely), 2 left unchanged, 3 refused, 14
/// skipped (12 GIF, 2 raw: format not supported)`.
#[derive(Clone, Copy)]
pub struct Summary<'a> {
    /// What was done with the files.
    pub verb: &'a str,
    /// What is said of those with which not all was done.
    pub partial: &'a str,
    /// How many.
    pub counts: &'a Counts,
}

impl fmt::Display for Summary<'_> {
    ghost output = { λ summary. Some (summary_text summary.verb.now summary.partial.now
        summary.counts.now) };

    fn fmt<W: fmt::Write>(&self, f: &mut fmt::Formatter<W>) -> fmt::Result {
        let verb = self.verb;
        let counts = self.counts;
        let done = counts.done;
        write!(f, "{done} {verb}")?;
        write_partial(f, counts.partial, self.partial)?;
        write_some(f, counts.current, "already so")?;
        write_some(f, counts.unchanged, "left unchanged")?;
        let refused = counts.refused;
        write!(f, ", {refused} refused, ")?;
        write_skipped(f, counts)
    }
}

// Writes how many of the files were not done completely, if some were not.
fn write_partial<W: fmt::Write>(f: &mut fmt::Formatter<W>, count: u64, partial: &str) -> fmt::Result
    ensures { WritesOnOk W.write_str_gives f.old result (partial_text count partial.now) f.new }
{
    if count == 0 {
        return Ok(());
    }
    write!(f, " ({count} {partial})")
}

// Writes how many there are of something, if there are some.
fn write_some<W: fmt::Write>(f: &mut fmt::Formatter<W>, count: u64, what: &str) -> fmt::Result
    ensures { WritesOnOk W.write_str_gives f.old result (some_text count what.now) f.new }
{
    if count == 0 {
        return Ok(());
    }
    write!(f, ", {count} {what}")
}

// Writes how many files were skipped, and of which kinds.
fn write_skipped<W: fmt::Write>(f: &mut fmt::Formatter<W>, counts: &Counts) -> fmt::Result
    ensures { WritesOnOk W.write_str_gives f.old result (skipped_text counts.now) f.new }
{
    let skipped = counts.skipped();
    let formats = format_amounts(&counts.formats);
    let things = things(counts);
    let has_formats = has_some(&formats);
    let has_things = has_some(&things);
    write!(f, "{skipped} skipped")?;
    if !has_formats && !has_things {
        return Ok(());
    }
    f.write_str(" (")?;
    write_formats(f, &formats)?;
    write_between(f, has_formats, has_things)?;
    write_list(f, "; ", &things)?;
    f.write_str(")")
}

// So many files of a kind.
#[derive(Clone, Copy)]
struct Amount {
    count: u64,
    what: &'static str,
    // of more than one
    plural: &'static str,
}

impl Amount {
    // So many files of a format.
    fn of(count: u64, format: Unsupported) -> Amount
        ensures { amount_of result ≡ format_amount count format }
    {
        Amount {
            count,
            what: format.name(),
            plural: "",
        }
    }

    // So many things.
    fn things(count: u64, what: &'static str) -> Amount
        ensures { amount_of result ≡ thing count what.now }
    {
        Amount {
            count,
            what,
            plural: plural(count),
        }
    }
}

impl fmt::Display for Amount {
    ghost output = { λ amount. Some (amount_text (amount_of amount)) };

    fn fmt<W: fmt::Write>(&self, f: &mut fmt::Formatter<W>) -> fmt::Result {
        let Amount {
            count,
            what,
            plural,
        } = *self;
        write!(f, "{count} {what}{plural}")
    }
}

// What follows the name of a thing: an `s`, unless there is one.
fn plural(count: u64) -> &'static str
    ensures { result.now ≡ plural count }
{
    if count == 1 { "" } else { "s" }
}

// How many files there are of each format that is not read.
fn format_amounts(counts: &FormatCounts) -> [Amount; 9]
    ensures { map amount_of result ≡ format_amounts counts.now }
{
    [
        Amount::of(counts.gif, Unsupported::Gif),
        Amount::of(counts.bmp, Unsupported::Bmp),
        Amount::of(counts.psd, Unsupported::Psd),
        Amount::of(counts.raw, Unsupported::Raw),
        Amount::of(counts.video, Unsupported::Video),
        Amount::of(counts.jpeg2000, Unsupported::Jpeg2000),
        Amount::of(counts.big_tiff, Unsupported::BigTiff),
        Amount::of(counts.svg, Unsupported::Svg),
        Amount::of(counts.pdf, Unsupported::Pdf),
    ]
}

// How many files were skipped of each other kind.
fn things(counts: &Counts) -> [Amount; 7]
    ensures { map amount_of result ≡ things counts.now }
{
    [
        Amount::things(counts.damaged, "damaged or empty file"),
        Amount::things(counts.sidecars.xmp, "XMP sidecar"),
        Amount::things(counts.sidecars.aae, "AAE sidecar"),
        Amount::things(counts.sidecars.thm, "THM sidecar"),
        Amount::things(counts.links, "symbolic link"),
        Amount::things(counts.own, "backup or temporary file"),
        Amount::things(counts.others, "other file"),
    ]
}

// Whether there are some files of one of these kinds.
fn has_some(amounts: &[Amount]) -> bool
    ensures { result ≡ list_any (λ amount. nat_lt 0 amount.count) amounts.now }
{
    amounts.iter().any(|amount| amount.count > 0)
}

// Writes the formats that are not read, if there are some.
fn write_formats<W: fmt::Write>(f: &mut fmt::Formatter<W>, formats: &[Amount]) -> fmt::Result
    ensures { WritesOnOk W.write_str_gives f.old result
        (formats_text (map amount_of formats.now)) f.new }
{
    if !has_some(formats) {
        return Ok(());
    }
    write_list(f, ", ", formats)?;
    f.write_str(": format not supported")
}

// Writes what is between the formats and other kinds, if there are both.
fn write_between<W: fmt::Write>(
    f: &mut fmt::Formatter<W>,
    has_formats: bool,
    has_things: bool,
) -> fmt::Result
    ensures { WritesOnOk W.write_str_gives f.old result
        (between_kinds (has_formats && has_things)) f.new }
{
    if has_formats && has_things {
        f.write_str("; ")
    } else {
        Ok(())
    }
}

// Writes those of which there are some, with a text between two of them.
fn write_list<W: fmt::Write>(
    f: &mut fmt::Formatter<W>,
    between: &str,
    amounts: &[Amount],
) -> fmt::Result
    ensures { WritesOnOk W.write_str_gives f.old result
        (listed between.now (map amount_of amounts.now)) f.new }
{
    let mut is_begun = false;
    for amount in amounts {
        write_amount(f, is_begun, between, *amount)?;
        is_begun |= amount.count > 0;
    }
    Ok(())
}

// Writes how many there are of a kind, if there are some, behind those before it.
fn write_amount<W: fmt::Write>(
    f: &mut fmt::Formatter<W>,
    is_begun: bool,
    between: &str,
    amount: Amount,
) -> fmt::Result
    ensures { WritesOnOk W.write_str_gives f.old result
        (next_text is_begun between.now (amount_of amount)) f.new }
{
    if amount.count == 0 {
        return Ok(());
    }
    if is_begun {
        f.write_str(between)?;
    }
    write!(f, "{amount}")
}
