//! Reads of a stream of which only so many bytes count, and the code of the next unit.

ghost use Rattle.std.specs.Prelude.{◌≡◌, ◌≢◌, false, ◌<◌, ◌≤◌, ◌*◌, ◌+◌, ◌∷◌, [], ◌++◌, List, ℕ, Some, take, length, OnOk, IfOk, IfErr, Err};
ghost use Rattle.exif_base.specs.Reads.{Counts};
ghost use Rattle.exif_types.specs.Refusals.{is_io, refusal_of};
ghost use Rattle.exif_segments.specs.Answer.{IsShort};
ghost use Rattle.exif_segments.specs.Within.{Moves};
ghost use Rattle.exif_types.specs.declared.error.Error.TheVariants.{OutOfMemory};
ghost use Rattle.exif_segments.specs.Jpeg.{after_marks, broken_jpeg, code_onwards, from_mark};

use crate::jpeg::MARK;
use crate::util::{collect, error_of, fill, skip};
use exif_base::{Source, read8, read16};
use exif_types::Error;
use std::alloc::Global;

// What the end of the bytes is called.
const BROKEN: &str = "Broken JPEG file";

// Counts bytes against those that may still be taken.
fn spend(budget: &mut u64, len: u64) -> Result<(), Error>
    ensures ok { OnOk result (budget.old ≡ budget.new + len) }
    ensures short { IfErr result (λ e. (refusal_of e ≡ Some broken_jpeg) × (budget.old < len)) }
    ensures no_memory { result ≢ Err OutOfMemory }
{
    match budget.checked_sub(len) {
        Some(rest) => {
            *budget = rest;
            Ok(())
        }
        None => Err(Error::InvalidFormat(BROKEN)),
    }
}

/// Fills the buffer with the next bytes.
pub fn fill_within<R: Source>(source: &mut R, budget: &mut u64, buf: &mut [u8]) -> Result<(), Error>
    ensures taken { OnOk result (Moves (R.left source.old) budget.old (R.left source.new) budget.new
        (λ xs ys. xs ≡ buf.new ++ ys)) }
    ensures spent { OnOk result (budget.old ≡ budget.new + length buf.old) }
    ensures short { IfErr result (λ e. IsShort broken_jpeg e (R.left source.old)
        (λ xs. length (take budget.old xs) < length buf.old)) }
    ensures no_memory { result ≢ Err OutOfMemory }
    ensures counts { Counts R.Source source.old source.new (is_io result) }
{
    spend(budget, buf.len() as u64)?;
    fill(source, buf, BROKEN)
}

/// Takes the next bytes and forgets them, without memory.
#[tactic(auto, using(crate::proofs::LimitedMoves::skips_within))]
pub fn skip_within<R: Source>(source: &mut R, budget: &mut u64, len: u64) -> Result<(), Error>
    ensures taken { OnOk result (Moves (R.left source.old) budget.old (R.left source.new) budget.new
        (λ xs ys. (bytes : List ℕ) × (length bytes ≡ len) × (xs ≡ bytes ++ ys))) }
    ensures spent { OnOk result (budget.old ≡ budget.new + len) }
    ensures short { IfErr result
        (λ e. IsShort broken_jpeg e (R.left source.old) (λ xs. length (take budget.old xs) < len)) }
    ensures no_memory { result ≢ Err OutOfMemory }
    ensures counts { Counts R.Source source.old source.new (is_io result) }
{
    spend(budget, len)?;
    skip(source, len, BROKEN)?;
    Ok(())
}

/// The next bytes as a list.
pub fn collect_within<R: Source>(
    alloc: Global,
    source: &mut R,
    budget: &mut u64,
    len: u64,
) -> Result<Vec<u8>, Error>
    ensures taken { IfOk result (λ v.
        Moves (R.left source.old) budget.old (R.left source.new) budget.new
        (λ xs ys. xs ≡ v.items ++ ys)) }
    ensures len { IfOk result (λ v. length v.items ≡ len) }
    ensures spent { OnOk result (budget.old ≡ budget.new + len) }
    ensures short { IfErr result
        (λ e. IsShort broken_jpeg e (R.left source.old) (λ xs. length (take budget.old xs) < len)) }
    ensures counts { Counts R.Source source.old source.new (is_io result) }
{
    spend(budget, len)?;
    collect(alloc, source, len, BROKEN)
}

fn next_byte<R: Source>(source: &mut R, budget: &mut u64) -> Result<u8, Error>
    ensures taken { IfOk result (λ b.
        Moves (R.left source.old) budget.old (R.left source.new) budget.new
        (λ xs ys. xs ≡ b ∷ ys)) }
    ensures spent { OnOk result (budget.old ≡ budget.new + 1) }
    ensures short { IfErr result
        (λ e. IsShort broken_jpeg e (R.left source.old) (λ xs. length (take budget.old xs) < 1)) }
    ensures no_memory { result ≢ Err OutOfMemory }
    ensures counts { Counts R.Source source.old source.new (is_io result) }
{
    spend(budget, 1)?;
    read8(source).map_err(|fault| error_of(fault, BROKEN))
}

/// The number in the next two bytes, the highest first.
#[tactic(auto, using(crate::proofs::LimitedMoves::number_within))]
pub fn next16<R: Source>(source: &mut R, budget: &mut u64) -> Result<u16, Error>
    ensures taken { IfOk result (λ n.
        Moves (R.left source.old) budget.old (R.left source.new) budget.new
        (λ xs ys. (high low : ℕ) × (xs ≡ high ∷ low ∷ ys) × (n ≡ 256 * high + low))) }
    ensures spent { OnOk result (budget.old ≡ budget.new + 2) }
    ensures short { IfErr result
        (λ e. IsShort broken_jpeg e (R.left source.old) (λ xs. length (take budget.old xs) < 2)) }
    ensures no_memory { result ≢ Err OutOfMemory }
    ensures counts { Counts R.Source source.old source.new (is_io result) }
{
    spend(budget, 2)?;
    let number = read16(source).map_err(|fault| error_of(fault, BROKEN))?;
    Ok(number)
}

// Takes what is at hand and no ff.
fn pass_at_hand<R: Source>(source: &mut R, budget: &mut u64)
    ensures taken { Moves (R.left source.old) budget.old (R.left source.new) budget.new
        (λ xs ys. from_mark xs ≡ from_mark ys) }
    ensures spent { budget.new ≤ budget.old }
    ensures counts { Counts R.Source source.old source.new false }
{
    let passed = source.pass_others(MARK, *budget);
    *budget -= passed;
}

// Takes what is no ff, and one ff.
fn skip_to_mark<R: Source>(source: &mut R, budget: &mut u64) -> Result<(), Error>
    ensures taken { OnOk result (Moves (R.left source.old) budget.old (R.left source.new) budget.new
        (λ xs ys. from_mark xs ≡ 255 ∷ ys)) }
    ensures spent { OnOk result (budget.new < budget.old) }
    ensures short { IfErr result (λ e. IsShort broken_jpeg e (R.left source.old)
        (λ xs. from_mark (take budget.old xs) ≡ [])) }
    ensures no_memory { result ≢ Err OutOfMemory }
    ensures counts { Counts R.Source source.old source.new (is_io result) }
{
    loop {
        pass_at_hand(source, budget);
        let byte = next_byte(source, budget)?;
        if byte == MARK {
            return Ok(());
        }
    }
}

// Takes ffs and the code behind them.
fn code_after_marks<R: Source>(source: &mut R, budget: &mut u64) -> Result<u8, Error>
    ensures taken { IfOk result (λ code.
        Moves (R.left source.old) budget.old (R.left source.new) budget.new
        (λ xs ys. after_marks xs ≡ code ∷ ys)) }
    ensures spent { OnOk result (budget.new < budget.old) }
    ensures short { IfErr result (λ e. IsShort broken_jpeg e (R.left source.old)
        (λ xs. after_marks (take budget.old xs) ≡ [])) }
    ensures no_memory { result ≢ Err OutOfMemory }
    ensures counts { Counts R.Source source.old source.new (is_io result) }
{
    loop {
        let code = next_byte(source, budget)?;
        if code != MARK {
            return Ok(code);
        }
    }
}

/// Takes what is no ff, the ffs behind it and the code of the next unit, and gives that code.
pub fn next_code<R: Source>(source: &mut R, budget: &mut u64) -> Result<u8, Error>
    ensures taken { IfOk result (λ code.
        Moves (R.left source.old) budget.old (R.left source.new) budget.new
        (λ xs ys. code_onwards xs ≡ code ∷ ys)) }
    ensures spent { OnOk result (budget.new < budget.old) }
    ensures short { IfErr result (λ e. IsShort broken_jpeg e (R.left source.old)
        (λ xs. code_onwards (take budget.old xs) ≡ [])) }
    ensures no_memory { result ≢ Err OutOfMemory }
    ensures counts { Counts R.Source source.old source.new (is_io result) }
{
    skip_to_mark(source, budget)?;
    code_after_marks(source, budget)
}
