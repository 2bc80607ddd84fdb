//! The Exif segment of a JPEG stream (ITU-T T.81, B.1.1; Exif 2.32, 4.7.2).

ghost use Rattle.std.specs.Prelude.{◌≡◌, ◌<◌, ◌≤◌, ◌++◌, ◌∷◌, List, ℕ, Some, true, false, take, drop, length, OnOk, IfOk, IfErr, IfSome, MatchOption};
ghost use Rattle.std.specs.Option.{option_map};
ghost use Rattle.exif_base.specs.Reads.{Counts};
ghost use Rattle.exif_base.specs.Told.{WhereTold};
ghost use Rattle.exif_types.specs.Refusals.{Fails, is_io};
ghost use Rattle.exif_types.specs.declared.error.Error.TheVariants.{OutOfMemory};
ghost use Rattle.exif_segments.specs.Answer.{IsCollected, IsNamed, IsShort, found, offset_before};
ghost use Rattle.exif_segments.specs.Within.{Moves};
ghost use Rattle.exif_segments.specs.Jpeg.{JpegUnit, answer_at_code, answer_from, begins_exif, begins_jpeg, broken_jpeg, exif_payload as payload_of, jpeg_answer, jpeg_refusals, stands_alone, unit_answer, unit_from_code};

mod limited;

use exif_base::Source;
use exif_types::Error;
use limited::{collect_within, fill_within, next_code, next16, skip_within};
use std::alloc::Global;

/// The byte that begins a marker.
pub const MARK: u8 = 0xff;
/// For temporary use in arithmetic coding: no length follows.
pub const TEM: u8 = 0x01;
/// The first restart marker. No length follows the restarts, SOI and EOI.
pub const RST0: u8 = 0xd0;
/// The last restart marker.
pub const RST7: u8 = 0xd7;
/// The start of an image.
pub const SOI: u8 = 0xd8;
/// The end of an image.
pub const EOI: u8 = 0xd9;
/// The segment that Exif uses.
pub const APP1: u8 = 0xe1;

/// A stream ends for this module after so many bytes.
pub const LIMIT: u64 = u64::MAX;

const SIGNATURE: [u8; 2] = [MARK, SOI];

const EXIF_ID: [u8; 6] = *b"Exif\0\0";

/// Whether the bytes begin as a JPEG stream does.
pub fn is_jpeg(bytes: &[u8]) -> bool
    ensures { result ≡ begins_jpeg bytes.now }
{
    bytes.len() >= 2 && bytes[0] == MARK && bytes[1] == SOI
}

// A body of this length: what follows the identifier of Exif, where it begins with that.
fn exif_payload<R: Source>(
    alloc: Global,
    source: &mut R,
    budget: &mut u64,
    len: u64,
) -> Result<Option<Vec<u8>>, Error>
    ensures taken { IfOk result (λ payload.
        Moves (R.left source.old) budget.old (R.left source.new) budget.new
        (λ xs ys. (body : List ℕ) × (length body ≡ len) × (xs ≡ body ++ ys)
        × (payload_of body ≡ option_map (λ v. v.items) payload))) }
    ensures spent { OnOk result (budget.new ≤ budget.old) }
    ensures short { IfErr result (λ e. IsShort broken_jpeg e (R.left source.old)
        (λ xs. length (take budget.old xs) < len)) }
    ensures memory { IfErr result (λ e. e ≡ OutOfMemory → IfSome (R.left source.old)
        (λ xs. (6 ≤ len) × (begins_exif (take budget.old xs) ≡ true))) }
    ensures counts { Counts R.Source source.old source.new (is_io result) }
{
    if len < 6 {
        skip_within(source, budget, len)?;
        return Ok(None);
    }
    let mut id = [0u8; 6];
    fill_within(source, budget, &mut id)?;
    if id != EXIF_ID {
        let _passed = skip_within(source, budget, len - 6)?;
        return Ok(None);
    }
    let payload = collect_within(alloc, source, budget, len - 6)?;
    Ok(Some(payload))
}

// Whether a code has no length. A zero byte behind an ff is stuffing.
fn has_no_body(code: u8) -> bool
    ensures { result ≡ stands_alone code }
{
    matches!(code, 0x00 | TEM | RST0..=EOI)
}

// What follows a code that has a body.
#[tactic(auto, using(crate::proofs::JpegMoves::bad_length_named))]
fn segment<R: Source>(
    alloc: Global,
    source: &mut R,
    budget: &mut u64,
    code: u8,
) -> Result<Option<Vec<u8>>, Error>
    requires { stands_alone code ≡ false }
    ensures taken { IfOk result (λ payload.
        Moves (R.left source.old) budget.old (R.left source.new) budget.new
        (λ xs ys. (u : JpegUnit) × (unit_from_code (code ∷ xs) ≡ Some u) × (u.rest ≡ ys)
        × (unit_answer u ≡ option_map (λ v. found v.items ys) payload))) }
    ensures spent { OnOk result (budget.new ≤ budget.old) }
    ensures refused { IfErr result (λ e. IfSome (R.left source.old)
        (λ xs. Fails e (answer_at_code code (take budget.old xs)))) }
    ensures named { IfErr result (IsNamed jpeg_refusals) }
    ensures memory { IfErr result (λ e. e ≡ OutOfMemory → IfSome (R.left source.old)
        (λ xs. IsCollected broken_jpeg (answer_at_code code (take budget.old xs)))) }
    ensures counts { Counts R.Source source.old source.new (is_io result) }
{
    let size = u64::from(next16(source, budget)?);
    if size < 2 {
        return Err(Error::InvalidFormat("Invalid segment length"));
    }
    if code == APP1 {
        let payload = exif_payload(alloc, source, budget, size - 2)?;
        return Ok(payload);
    }
    skip_within(source, budget, size - 2)?;
    Ok(None)
}

// The next unit: its Exif bytes, where it answers them.
fn next_unit<R: Source>(
    alloc: Global,
    source: &mut R,
    budget: &mut u64,
) -> Result<Option<Vec<u8>>, Error>
    ensures taken { IfOk result (λ payload.
        Moves (R.left source.old) budget.old (R.left source.new) budget.new
        (λ xs ys. MatchOption payload (answer_from xs ≡ answer_from ys)
        (λ v. answer_from xs ≡ found v.items ys))) }
    ensures spent { OnOk result (budget.new < budget.old) }
    ensures refused { IfErr result (λ e. IfSome (R.left source.old)
        (λ xs. Fails e (answer_from (take budget.old xs)))) }
    ensures named { IfErr result (IsNamed jpeg_refusals) }
    ensures memory { IfErr result (λ e. e ≡ OutOfMemory → IfSome (R.left source.old)
        (λ xs. IsCollected broken_jpeg (answer_from (take budget.old xs)))) }
    ensures counts { Counts R.Source source.old source.new (is_io result) }
{
    let code = next_code(source, budget)?;
    match code {
        SOI => Err(Error::InvalidFormat("Unexpected SOI")),
        EOI => Err(Error::NotFound("JPEG")),
        _ if has_no_body(code) => Ok(None),
        _ => {
            let payload = segment(alloc, source, budget, code)?;
            Ok(payload)
        }
    }
}

/// The Exif bytes of a JPEG stream, and their offset: how many bytes of the source precede them.
///
/// The answers are those of [`get_exif_attr`].
pub fn locate<R: Source>(alloc: Global, source: &mut R) -> Result<(Vec<u8>, u64), Error>
    ensures found { IfOk result (λ v. WhereTold (R.left source.old) (R.left source.new)
        (λ xs ys. (rest : List ℕ) × (jpeg_answer (take LIMIT xs) ≡ found v.0.items rest)
        × (ys ≡ rest ++ drop LIMIT xs) × (v.1 ≡ offset_before (take LIMIT xs) v.0.items rest))) }
    ensures refused { IfErr result (λ e. IfSome (R.left source.old)
        (λ xs. Fails e (jpeg_answer (take LIMIT xs)))) }
    ensures named { IfErr result (IsNamed jpeg_refusals) }
    ensures memory { IfErr result (λ e. e ≡ OutOfMemory → IfSome (R.left source.old)
        (λ xs. IsCollected broken_jpeg (jpeg_answer (take LIMIT xs)))) }
    ensures counts { Counts R.Source source.old source.new (is_io result) }
{
    let mut budget = LIMIT;
    let mut signature = [0u8; 2];
    fill_within(source, &mut budget, &mut signature)?;
    if signature != SIGNATURE {
        return Err(Error::InvalidFormat("Not a JPEG file"));
    }
    loop {
        if let Some(payload) = next_unit(alloc, source, &mut budget)? {
            let offset = (LIMIT - budget).saturating_sub(payload.len() as u64);
            return Ok((payload, offset));
        }
    }
}

/// The Exif bytes of a JPEG stream, taken from a source that may hold bytes at hand.
///
/// What follows their segment is left in the source. Refusals: `Not a JPEG file`, `Unexpected SOI`,
/// `Invalid segment length`, NotFound `JPEG` at the end of the image, and `Broken JPEG file` where
/// the bytes end before an answer, or after `LIMIT` bytes. What is skipped takes no memory:
/// `OutOfMemory` comes only where a payload is collected. After an error, how far the source was
/// read is left open.
pub fn get_exif_attr<R: Source>(alloc: Global, source: &mut R) -> Result<Vec<u8>, Error>
    ensures found { IfOk result (λ v. WhereTold (R.left source.old) (R.left source.new)
        (λ xs ys. (rest : List ℕ) × (jpeg_answer (take LIMIT xs) ≡ found v.items rest)
        × (ys ≡ rest ++ drop LIMIT xs))) }
    ensures refused { IfErr result (λ e. IfSome (R.left source.old)
        (λ xs. Fails e (jpeg_answer (take LIMIT xs)))) }
    ensures named { IfErr result (IsNamed jpeg_refusals) }
    ensures memory { IfErr result (λ e. e ≡ OutOfMemory → IfSome (R.left source.old)
        (λ xs. IsCollected broken_jpeg (jpeg_answer (take LIMIT xs)))) }
    ensures counts { Counts R.Source source.old source.new (is_io result) }
{
    let (payload, _offset) = locate(alloc, source)?;
    Ok(payload)
}

/// The Exif bytes of a JPEG stream: TIFF data, without the six bytes of the identifier (Exif 2.32,
/// 4.7.2). What follows their segment is left unread.
///
/// It takes single bytes of the source, so that nothing behind is lost: a bare file needs a
/// buffered reader, as `Counted::new(BufReader::new(alloc, file)?)`.
///
/// The answers are those of `jpeg::get_exif_attr`, and what is skipped takes no memory either.
/// After an error, how far the source was read is left open.
pub fn get_exif_attr_from_jpeg<R: Source>(alloc: Global, source: &mut R) -> Result<Vec<u8>, Error>
    ensures found { IfOk result (λ v. WhereTold (R.left source.old) (R.left source.new)
        (λ xs ys. (rest : List ℕ) × (jpeg_answer (take LIMIT xs) ≡ found v.items rest)
        × (ys ≡ rest ++ drop LIMIT xs))) }
    ensures refused { IfErr result (λ e. IfSome (R.left source.old)
        (λ xs. Fails e (jpeg_answer (take LIMIT xs)))) }
    ensures named { IfErr result (IsNamed jpeg_refusals) }
    ensures memory { IfErr result (λ e. e ≡ OutOfMemory → IfSome (R.left source.old)
        (λ xs. IsCollected broken_jpeg (jpeg_answer (take LIMIT xs)))) }
    ensures counts { Counts R.Source source.old source.new (is_io result) }
{
    get_exif_attr(alloc, source)
}
