//! Files as they are read: a file that seeks costs what is read of it, anything else is taken into
//! memory.

ghost use Rattle.std.specs.Prelude.{◌≡◌, ℕ, List, Option, IfErr, IfOk, IfSome, codes, option_map, take};
ghost use Rattle.exif_types.specs.Refusals.{IsInterrupted};
ghost use Rattle.exif_formats.specs.Formats.{format_in};
ghost use Rattle.exif_formats.specs.Pictures.{ReadsPicture};
ghost use Rattle.exif_inputs.specs.Uses.{IsInMemory, found_for, has_parts, held, serves};

use exif::{Counted, Error, Seekable};
use exif_containers::container::SNIFF_LEN;
use exif_decisions::{Found, ending_of, found_of, name_of, unsupported_of};
use exif_formats::{Options, Picture, PictureFormat, format_of, read_picture};
use std::alloc::Global;
use std::fs::File;
use std::io::{self, Read, Seek, SeekFrom};

/// What is read.
#[derive(Drop)]
pub enum Input {
    /// A file that seeks, at its start.
    File(File),
    /// All the bytes of anything else.
    Bytes(Vec<u8>),
}

/// Opens a file, `-` for standard input.
pub fn open(rt: &HostRuntime, path: &str) -> io::Result<Input>
    ensures { path.now ≡ codes "-" → IfOk result IsInMemory }
{
    if path == "-" {
        return Ok(Input::Bytes(read_all(rt.alloc(), rt.stdin())?));
    }
    let mut file = File::open(rt, path)?;
    if file.seek(SeekFrom::Start(0)).is_ok() {
        Ok(Input::File(file))
    } else {
        Ok(Input::Bytes(read_all(rt.alloc(), file)?))
    }
}

// All the bytes that a reader holds.
fn read_all<R: Read + Drop>(alloc: Global, mut reader: R) -> io::Result<Vec<u8>>
    ensures { IfOk result (λ bytes. IfSome (R.remaining reader) (λ all. bytes.items ≡ all)) }
{
    let mut bytes = Vec::new(alloc);
    reader.read_to_end(&mut bytes)?;
    Ok(bytes)
}

/// All the bytes of a file, `-` for standard input.
pub fn read_file(rt: &HostRuntime, path: &str) -> io::Result<Vec<u8>> {
    bytes_of(rt.alloc(), open(rt, path)?)
}

// All the bytes of what is read.
fn bytes_of(alloc: Global, input: Input) -> io::Result<Vec<u8>>
    ensures { IfOk result (λ bytes. IfSome (held input) (λ all. bytes.items ≡ all)) }
{
    match input {
        Input::File(file) => read_all(alloc, file),
        Input::Bytes(bytes) => Ok(bytes),
    }
}

/// What is done with a picture.
#[derive(Clone, Copy)]
pub enum Use {
    /// Its fields are read.
    Fields,
    /// Its parts are checked, or it is changed.
    Parts,
}

// Whether the parts of pictures of a format are known: raw files are only read.
fn has_parts(format: PictureFormat) -> bool
    ensures { result ≡ has_parts format }
{
    match format {
        PictureFormat::Raf | PictureFormat::Orf | PictureFormat::Rw2 | PictureFormat::Cr3 => false,
        PictureFormat::Container(_) | PictureFormat::Png | PictureFormat::JpegXl => true,
    }
}

// Whether bytes begin a picture of a format that is supported for this use.
fn is_supported(head: &[u8], wanted: Use) -> bool
    ensures { result ≡ serves (format_in head.now) wanted }
{
    match (format_of(head), wanted) {
        (None, _) => false,
        (Some(_), Use::Fields) => true,
        (Some(format), Use::Parts) => has_parts(format),
    }
}

/// What is done with a file that was found in a folder, by its first bytes and its name. One that
/// can't be read is processed, which reports that.
pub fn found_in_folder(rt: &HostRuntime, path: &str, wanted: Use) -> Found
    ensures { (head : Option (List ℕ)) × (result ≡ found_for head path.now wanted) }
{
    let head = match File::open(rt, path) {
        Ok(mut file) => head_of(rt.alloc(), &mut file),
        Err(cause) => Err(cause),
    };
    match head {
        Ok(head) => found_by(Some(head.as_slice()), path, wanted),
        Err(_cause) => found_by(None, path, wanted),
    }
}

// The same by its first bytes, if they can be read.
fn found_by(head: Option<&[u8]>, path: &str, wanted: Use) -> Found
    ensures { result ≡ found_for (option_map (λ bytes. bytes.now) head.entry) path.now wanted }
{
    match head {
        Some(head) => found_of(
            is_supported(head, wanted),
            head.is_empty(),
            unsupported_of(head),
            ending_of(name_of(path)),
        ),
        None => Found::Picture,
    }
}

// The first bytes of a file, which is at its start again.
fn head_of(alloc: Global, file: &mut File) -> io::Result<Vec<u8>> {
    let mut head = Vec::new(alloc);
    file.take(SNIFF_LEN as u64).read_to_end(&mut head)?;
    file.seek(SeekFrom::Start(0))?;
    Ok(head)
}

/// The format of what is read, and what a reader answers of it, in one pass.
pub fn read(alloc: Global, options: Options, input: Input) -> Result<Picture, Error>
    ensures format { IfOk result (λ picture. IfSome (held input) (λ bytes.
        picture.format ≡ format_in (take 4096 bytes))) }
    ensures reads { IfOk result (λ picture. IfSome (held input) (λ bytes.
        ReadsPicture options.lenient options.limit bytes picture.answer)) }
    ensures interrupted { IfErr result IsInterrupted }
{
    match input {
        Input::Bytes(bytes) => read_picture(options, alloc, &mut Counted::new(bytes.as_slice())),
        Input::File(file) => read_picture(options, alloc, &mut Seekable::new(file)),
    }
}
