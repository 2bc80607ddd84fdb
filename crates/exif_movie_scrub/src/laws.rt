//! Laws of scrubbed videos. They hold for all files, and are about the definitions alone.

ghost use Rattle.std.specs.Prelude.{◌≡◌, ◌↔◌, ℕ, List, Ok, Err, None, length};
ghost use Rattle.exif_movie.specs.Files.{parts_of};
ghost use Rattle.exif_movie.specs.declared.file.Refusal.{Refusal};
ghost use Rattle.exif_movie_scrub.specs.Promises.{AllBecome, AllUndated, HasParts, NoneIs, VideoStays, is_metadata, may_state_location};
ghost use Rattle.exif_movie_scrub.specs.Remainders.{settled};
ghost use Rattle.exif_movie_scrub.specs.Scrubbing.{scrubbed, zeroed_file};
ghost use Rattle.exif_movie_scrub.specs.declared.fault.Fault.TheVariants.{NotListed, Unstable};
ghost use Rattle.exif_movie_scrub.specs.declared.remaining.Remaining.{Remaining};
ghost use Rattle.exif_movie_scrub.specs.declared.request.Request.{Request};
ghost use Rattle.exif_movie_scrub.specs.declared.request.Request.TheVariants.{Metadata};

/// A scrubbed video that is scrubbed again stays as it is, and has the same answer.
pub fn scrubbing_twice_is_once()
    ensures { (request : Request) (file new : List ℕ) (remaining : List Remaining)
        → scrubbed request file ≡ (new, Ok remaining)
        → scrubbed request new ≡ (new, Ok remaining) }
{}

/// No part of a scrubbed video is a text or an item of a location, an XMP packet, another XML
/// document, or what a camera recorded in a form of its maker. Where all metadata are taken out,
/// no part is metadata, and the dates of each header are zeros.
pub fn none_is_found_again()
    ensures locations { (request : Request) (file new : List ℕ) (remaining : List Remaining)
        → scrubbed request file ≡ (new, Ok remaining)
        → NoneIs may_state_location (parts_of new) }
    ensures metadata { (file new : List ℕ) (remaining : List Remaining)
        → scrubbed Metadata file ≡ (new, Ok remaining)
        → NoneIs is_metadata (parts_of new) }
    ensures dates { (file new : List ℕ) (remaining : List Remaining)
        → scrubbed Metadata file ≡ (new, Ok remaining)
        → AllUndated new (parts_of new) }
{}

/// The new file is as long as the old one. Each part of the old file that is played has its bytes,
/// where they were: the samples of all tracks, and what states where they are and how they are
/// played. Each other part has its bytes, or zeros as its kind asks for.
pub fn the_video_stays()
    ensures length { (request : Request) (file : List ℕ)
        → length (zeroed_file request file) ≡ length file }
    ensures played { (request : Request) (file : List ℕ)
        → VideoStays file (zeroed_file request file) (parts_of file) }
    ensures each { (request : Request) (file : List ℕ)
        → AllBecome request file (zeroed_file request file) (parts_of file) }
{}

/// When a video is not scrubbed.
pub fn refusals_are_known()
    ensures not_listed { (request : Request) (file : List ℕ) (refusal : Refusal)
        → (scrubbed request file ≡ (file, Err (NotListed refusal)))
        ↔ (parts_of file ≡ Err refusal) }
    ensures unstable { (request : Request) (file new : List ℕ)
        → (scrubbed request file ≡ (new, Err Unstable))
        ↔ (HasParts (parts_of file) × (zeroed_file request file ≡ new)
        × (settled request new ≡ None)) }
{}
