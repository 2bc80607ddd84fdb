//! The thumbnail of a picture, where its file has it.

ghost use Rattle.std.specs.Prelude.{◌≡◌, IfErr, IfOk, IfSome, Ok, take};
ghost use Rattle.std.specs.Option.{option_map};
ghost use Rattle.exif_change.specs.Refusals.{Answers};
ghost use Rattle.exif_formats.specs.Cr3.{cr3_thumbnail};
ghost use Rattle.exif_formats.specs.Formats.{format_in};
ghost use Rattle.exif_thumbnails.specs.Canon.{cr3_preview};
ghost use Rattle.exif_thumbnails.specs.Heif.{heif_thumbnail, heif_view};
ghost use Rattle.exif_thumbnails.specs.Seen.{shown};
ghost use Rattle.exif_thumbnails.specs.Streams.{jpg_from_raw};
ghost use Rattle.exif_types.specs.Refusals.{IsInterrupted};
ghost use Rattle.exif_types.specs.declared.error.Error.TheVariants.{OutOfMemory};
ghost use Rattle.exif_inputs.specs.Found.{IsReadOf};
ghost use Rattle.exif_inputs.specs.Shown.{IsHeifShown, IsKeptSo, IsPreviewShown, IsRw2Shown, IsStreamShown, IsThumbnailIn, IsTiffShown, cr3_shown, data_shown, first_shown, item_by, item_shown, place_shown, stream_shown, whole_shown};
ghost use Rattle.exif_inputs.specs.Thumbnails.{jpeg_of, kept_in};
ghost use Rattle.exif_inputs.specs.Uses.{held};

use crate::choosing::exif_read;
use crate::inputs::{Input, open};
use exif::{Counted, Error, Exif, Seekable};
use exif_change::{ENTRY_LIMIT, Refusal};
use exif_formats::raw::cr3::find_thumbnail;
use exif_formats::{Format, Options, Picture, PictureFormat, read_bytes, read_picture};
use exif_thumbnails::{
    HeifThumbnail, Place, Thumbnail, ends_search, held_thumbnail, jpg_from_raw, place_of,
    preview_places, read_cr3_preview, read_heif_thumbnail, read_place, whole_stream,
};
use std::alloc::Global;
use std::io::{Seek, SeekFrom};

// Where a picture has its thumbnail.
#[derive(Clone, Copy)]
enum Kept {
    // in a box of its own: the thumbnail, or else the preview
    Box,
    // where its Exif data, which are the file, say
    File,
    // there too, or in a JPEG stream that is the value of a field
    Stream,
    // as an item of the file, or in its Exif data
    Items,
    // in its Exif data
    Data,
}

// Where a picture of a format has its thumbnail.
fn kept_in(format: Option<PictureFormat>) -> Kept
    ensures { result ≡ kept_in format }
{
    match format {
        Some(PictureFormat::Cr3) => Kept::Box,
        Some(PictureFormat::Container(Format::Tiff) | PictureFormat::Orf) => Kept::File,
        Some(PictureFormat::Rw2) => Kept::Stream,
        Some(PictureFormat::Container(Format::Heif)) => Kept::Items,
        _ => Kept::Data,
    }
}

/// The bytes of a thumbnail, or why there are none.
pub fn jpeg_of(found: Option<Thumbnail>) -> Result<Vec<u8>, Refusal>
    ensures { Answers (λ jpeg. jpeg.items) result (jpeg_of found) }
{
    match found {
        Some(Thumbnail::Jpeg(jpeg)) => Ok(jpeg),
        Some(Thumbnail::TooLong) => Err(Refusal::Reading(Error::InvalidFormat(
            "The thumbnail is longer than 1 MiB",
        ))),
        Some(Thumbnail::CutOff) => Err(Refusal::Reading(Error::InvalidFormat(
            "The thumbnail is cut off",
        ))),
        Some(Thumbnail::Item(_coding)) => Err(Refusal::Reading(Error::InvalidFormat(
            "The thumbnail is an item of the HEIF file, which is not read",
        ))),
        None => Err(Refusal::NoThumbnail),
    }
}

/// The thumbnail of a picture, if it has one: that in its Exif data, which is read from the file
/// where it is behind what was held of them, or else a preview; and that in the box of a CR3 file,
/// or else its preview. Of one that is an item of a HEIF file and not read, its coding is answered.
/// Faults are skipped.
pub fn thumbnail_of(rt: &HostRuntime, path: &str) -> Result<Option<Thumbnail>, Error> {
    let input = open(rt, path)?;
    thumbnail_in(rt.alloc(), &input)
}

// The thumbnail of the picture that is read.
fn thumbnail_in(alloc: Global, input: &Input) -> Result<Option<Thumbnail>, Error>
    ensures { IfOk result (λ found. IfSome (held input.now) (λ bytes.
        IsThumbnailIn bytes (option_map shown found))) }
{
    let picture = picture_in(alloc, input)?;
    let kept = kept_in(picture.format);
    thumbnail_by(alloc, input, kept, exif_read(picture.answer))
}

// The thumbnail that is kept so in a picture of which this was read.
fn thumbnail_by(
    alloc: Global,
    input: &Input,
    kept: Kept,
    read: Result<Exif, Error>,
) -> Result<Option<Thumbnail>, Error>
    ensures { IfOk result (λ found. IfSome (held input.now) (λ bytes.
        IsKeptSo kept read.entry bytes (option_map shown found))) }
{
    match kept {
        Kept::Box => in_cr3(alloc, input),
        Kept::File => in_tiff(alloc, input, &read?),
        Kept::Stream => in_rw2(alloc, input, &read?),
        Kept::Items => in_heif(alloc, input, read),
        Kept::Data => in_data(alloc, &read?),
    }
}

// How a picture is read: faults are skipped.
const OPTIONS: Options = Options {
    lenient: true,
    limit: Some(ENTRY_LIMIT),
};

// What is read of a file.
fn picture_in(alloc: Global, input: &Input) -> Result<Picture, Error>
    ensures format { IfOk result (λ picture. IfSome (held input.now) (λ bytes.
        picture.format ≡ format_in (take 4096 bytes))) }
    ensures reads { IfOk result (λ picture. IfSome (held input.now) (λ bytes.
        IsReadOf bytes picture.answer)) }
    ensures interrupted { IfErr result IsInterrupted }
{
    match input {
        Input::Bytes(bytes) => { read_picture(OPTIONS, alloc, &mut Counted::new(bytes.as_slice())) }
        Input::File(file) => read_picture(OPTIONS, alloc, &mut Seekable::new(file)),
    }
}

// The thumbnail in the Exif data that are held.
fn in_data(alloc: Global, exif: &Exif) -> Result<Option<Thumbnail>, Error>
    ensures found { IfOk result (λ found. option_map shown found ≡ data_shown exif.now) }
    ensures memory { IfErr result (λ e. e ≡ OutOfMemory) }
{
    match held_thumbnail(exif) {
        Some(jpeg) => Ok(Some(Thumbnail::Jpeg(Vec::from_slice(alloc, jpeg)?))),
        None => Ok(None),
    }
}

// The thumbnail of an RW2 file: that in its JPEG stream, or else as of a file that is TIFF data.
fn in_rw2(alloc: Global, input: &Input, exif: &Exif) -> Result<Option<Thumbnail>, Error>
    ensures { IfOk result (λ found. IfSome (held input.now) (λ bytes.
        IsRw2Shown (jpg_from_raw exif.now.fields) exif.now bytes (option_map shown found))) }
{
    match jpg_from_raw(exif) {
        Some(stream) => Ok(Some(in_stream(alloc, stream)?)),
        None => in_tiff(alloc, input, exif),
    }
}

// The thumbnail in the Exif data of a JPEG stream, or else the stream.
fn in_stream(alloc: Global, stream: &[u8]) -> Result<Thumbnail, Error>
    ensures { IfOk result (λ found. IsStreamShown stream.now (shown found)) }
{
    let picture = read_bytes(OPTIONS, alloc, stream);
    stream_by(alloc, stream, exif_read(picture.answer))
}

// The thumbnail in the Exif data of a JPEG stream of which this was read, or else the stream.
fn stream_by(alloc: Global, stream: &[u8], read: Result<Exif, Error>) -> Result<Thumbnail, Error>
    ensures { IfOk result (λ found. shown found ≡ stream_shown stream.now read.entry) }
{
    match read {
        Ok(exif) => match in_data(alloc, &exif)? {
            Some(held) => Ok(held),
            None => stream_whole(alloc, stream),
        },
        Err(Error::OutOfMemory) => Err(Error::OutOfMemory),
        Err(_refused) => stream_whole(alloc, stream),
    }
}

// A JPEG stream as a thumbnail.
fn stream_whole(alloc: Global, stream: &[u8]) -> Result<Thumbnail, Error>
    ensures { IfOk result (λ found. shown found ≡ whole_shown stream.now) }
{
    Ok(whole_stream(alloc, stream)?)
}

// The thumbnail of a file that is TIFF data, of which no more than a prefix may be held; where
// there is none, the shortest preview that is JPEG data.
fn in_tiff(alloc: Global, input: &Input, exif: &Exif) -> Result<Option<Thumbnail>, Error>
    ensures { IfOk result (λ found. IfSome (held input.now) (λ bytes.
        IsTiffShown exif.now bytes (option_map shown found))) }
{
    if let Some(held) = in_data(alloc, exif)? {
        return Ok(Some(held));
    }
    match place_of(exif) {
        Some(place) => Ok(Some(at_place(alloc, input, place)?)),
        None => preview_in(alloc, input, exif),
    }
}

// The shortest preview of a file that is JPEG data.
fn preview_in(alloc: Global, input: &Input, exif: &Exif) -> Result<Option<Thumbnail>, Error>
    ensures { IfOk result (λ found. IfSome (held input.now) (λ bytes.
        IsPreviewShown exif.now bytes (option_map shown found))) }
{
    let places = preview_places(alloc, exif)?;
    first_in(alloc, input, places.as_slice())
}

// What is at the first place that ends the search.
fn first_in(alloc: Global, input: &Input, places: &[Place]) -> Result<Option<Thumbnail>, Error>
    ensures { IfOk result (λ found. IfSome (held input.now) (λ bytes.
        option_map shown found ≡ first_shown bytes places.now)) }
{
    for place in places {
        let found = at_place(alloc, input, *place)?;
        if ends_search(&found) {
            return Ok(Some(found));
        }
    }
    Ok(None)
}

// The thumbnail of a HEIF file: that in its Exif data, or else an item.
fn in_heif(
    alloc: Global,
    input: &Input,
    read: Result<Exif, Error>,
) -> Result<Option<Thumbnail>, Error>
    ensures { IfOk result (λ found. IfSome (held input.now) (λ bytes.
        IsHeifShown read.entry bytes (option_map shown found))) }
{
    match read {
        Ok(exif) => match in_data(alloc, &exif)? {
            Some(held) => Ok(Some(held)),
            None => item_in(alloc, input),
        },
        Err(Error::NotFound(_)) => item_in(alloc, input),
        Err(error) => Err(error),
    }
}

// The thumbnail of a HEIF file that is an item: its bytes, or how it is coded.
fn item_in(alloc: Global, input: &Input) -> Result<Option<Thumbnail>, Error>
    ensures { IfOk result (λ found. IfSome (held input.now) (λ bytes.
        option_map shown found ≡ item_shown bytes)) }
{
    let known = known_in(alloc, input)?;
    item_of(alloc, input, known)
}

// The thumbnail that is an item of which this is known.
fn item_of(
    alloc: Global,
    input: &Input,
    known: Option<HeifThumbnail>,
) -> Result<Option<Thumbnail>, Error>
    ensures { IfOk result (λ found. IfSome (held input.now) (λ bytes.
        option_map shown found ≡ item_by bytes (option_map heif_view known))) }
{
    match known {
        Some(HeifThumbnail::At(place)) => Ok(Some(at_place(alloc, input, place)?)),
        Some(HeifThumbnail::Known(thumbnail)) => Ok(Some(thumbnail)),
        None => Ok(None),
    }
}

// What the first bytes of a HEIF file say of its thumbnail.
fn known_in(alloc: Global, input: &Input) -> Result<Option<HeifThumbnail>, Error>
    ensures reads { IfOk result (λ found. IfSome (held input.now) (λ bytes.
        option_map heif_view found ≡ heif_thumbnail (take 1048576 bytes))) }
{
    match input {
        Input::Bytes(bytes) => read_heif_thumbnail(alloc, &mut Counted::new(bytes.as_slice())),
        Input::File(file) => {
            let mut again = file;
            again.seek(SeekFrom::Start(0))?;
            read_heif_thumbnail(alloc, &mut Seekable::new(again))
        }
    }
}

// What a file has at a place.
fn at_place(alloc: Global, input: &Input, place: Place) -> Result<Thumbnail, Error>
    ensures { IfOk result (λ found. IfSome (held input.now) (λ bytes.
        shown found ≡ place_shown bytes place)) }
{
    match input {
        Input::Bytes(bytes) => held_place(alloc, bytes.as_slice(), place),
        Input::File(file) => {
            let mut again = file;
            again.seek(SeekFrom::Start(0))?;
            read_place(alloc, &mut Seekable::new(again), place)
        }
    }
}

// What bytes have at a place.
fn held_place(alloc: Global, bytes: &[u8], place: Place) -> Result<Thumbnail, Error>
    ensures { IfOk result (λ found. shown found ≡ place_shown bytes.now place) }
{
    read_place(alloc, &mut Counted::new(bytes), place)
}

// The thumbnail of a CR3 file, or else its preview.
fn in_cr3(alloc: Global, input: &Input) -> Result<Option<Thumbnail>, Error>
    ensures { IfOk result (λ found. IfSome (held input.now) (λ bytes.
        cr3_shown bytes ≡ Ok (option_map shown found))) }
{
    match box_in(alloc, input)? {
        Some(jpeg) => Ok(Some(Thumbnail::Jpeg(jpeg))),
        None => cr3_preview_in(alloc, input),
    }
}

// The thumbnail in the box of its own of a CR3 file.
fn box_in(alloc: Global, input: &Input) -> Result<Option<Vec<u8>>, Error>
    ensures { IfOk result (λ jpeg. IfSome (held input.now) (λ bytes.
        cr3_thumbnail bytes ≡ Ok (option_map (λ v. v.items) jpeg))) }
{
    match input {
        Input::Bytes(bytes) => find_thumbnail(alloc, &mut Counted::new(bytes.as_slice())),
        Input::File(file) => {
            let mut again = file;
            again.seek(SeekFrom::Start(0))?;
            find_thumbnail(alloc, &mut Seekable::new(again))
        }
    }
}

// The preview of a CR3 file.
fn cr3_preview_in(alloc: Global, input: &Input) -> Result<Option<Thumbnail>, Error>
    ensures { IfOk result (λ found. IfSome (held input.now) (λ bytes.
        cr3_preview bytes ≡ Ok (option_map shown found))) }
{
    match input {
        Input::Bytes(bytes) => read_cr3_preview(alloc, &mut Counted::new(bytes.as_slice())),
        Input::File(file) => {
            let mut again = file;
            again.seek(SeekFrom::Start(0))?;
            read_cr3_preview(alloc, &mut Seekable::new(again))
        }
    }
}
