//! A video without its metadata.

ghost use Rattle.std.specs.Prelude.{◌≡◌, ◌≤◌, ◌⊎◌, length, All, IfOk, OnErr};
ghost use Rattle.exif_movie.specs.Parts.{IsInside};
ghost use Rattle.exif_movie_scrub.specs.Scrubbing.{part_zeroed, parts_zeroed, scrub_view, scrubbed, zeroed_file};

use crate::fault::Fault;
use crate::remaining::{Remaining, find_remaining};
use crate::request::{Request, zeroed_of};
use crate::zeros::write_zeros;
use exif_movie::{Part, parts};
use std::alloc::{AllocError, Global};

// Writes zeros over what of a part becomes zeros.
fn zero_part(request: Request, part: Part, file: &mut [u8])
    requires ordered { part.offset ≤ part.end }
    requires within { part.end ≤ length file.old }
    ensures { file.new ≡ part_zeroed request part file.old }
{
    write_zeros(zeroed_of(request, part), &mut file[part.offset..part.end]);
}

// The same of all parts of a file.
fn zero_parts(request: Request, parts: &[Part], file: &mut [u8])
    requires { All (IsInside (length file.old)) parts.now }
    ensures { file.new ≡ parts_zeroed request parts.now file.old }
{
    for part in parts {
        zero_part(request, *part, file);
    }
}

/// Takes locations, or all metadata and the dates, out of a QuickTime or MP4 video, in place, and
/// answers the parts that may still hold a location, in their order.
///
/// A box with metadata becomes free space (`free`) of the same size, with zeros as its content.
/// The two dates of a header become zeros. No other byte is written, and none moves, so the video
/// plays as it did ([`crate::laws`]).
///
/// Samples are not looked at. So tracks of texts or data are answered, as are texts that are not
/// judged, boxes of unknown types that stay, boxes too deep to be opened, and bytes that are no
/// whole box. The answer is of the new file, which is read again.
///
/// It takes memory for three lists of one [`Part`] for each box. Out of memory leaves the file as
/// it was, or with all zeros written.
///
/// # Errors
///
/// [`Fault::NotListed`] if the file is no video, or has no movie box: it stays as it was.
/// [`Fault::Unstable`] if the new file has metadata that are to be taken out, or is no video: then
/// the zeros are written. No file is known for which this happens.
pub fn scrub(
    alloc: Global,
    request: Request,
    file: &mut [u8],
) -> Result<Result<Vec<Remaining>, Fault>, AllocError>
    ensures answer { IfOk result (λ made. scrub_view file.new made ≡ scrubbed request file.old) }
    ensures out_of_memory { OnErr result
        ((file.new ≡ file.old) ⊎ (file.new ≡ zeroed_file request file.old)) }
{
    match parts(alloc, file)? {
        Err(refusal) => Ok(Err(Fault::NotListed(refusal))),
        Ok(found) => {
            zero_parts(request, &found, file);
            match find_remaining(alloc, request, file)? {
                Some(remaining) => Ok(Ok(remaining)),
                None => Ok(Err(Fault::Unstable)),
            }
        }
    }
}
