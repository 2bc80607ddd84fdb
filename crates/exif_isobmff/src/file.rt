//! The boxes of a file.

ghost use Rattle.std.specs.Prelude.{◌≡◌, IfOk, Ok};
ghost use Rattle.std.specs.List.{list_any};
ghost use Rattle.exif_types.specs.Refusals.{Answers, Takes};
ghost use Rattle.exif_isobmff.specs.HeifFile.{file_box_at, fours, is_heif_brand, has_heif_brand, brand_checked, whole, passed, meta_body, begins_heif};
ghost use Rattle.exif_isobmff.specs.Extents.{behind_meta};
ghost use Rattle.exif_isobmff.specs.FileBoxView.{file_box_view};

use crate::{BoxSplitter, Kind};
use exif_types::Error;

/// A box of a file: its type, how long its body is, and the body as far as it is there.
#[derive(Clone, Copy)]
pub struct FileBox<'a> {
    kind: Kind,
    len: u64,
    body: &'a [u8],
}

// A body that is to be whole.
fn whole(len: u64, body: &[u8]) -> Result<&[u8], Error>
    ensures { Answers (λ b. b.now) result (whole len body.now) }
{
    if (body.len() as u64) < len {
        return Err(Error::InvalidFormat("Broken HEIF file"));
    }
    Ok(body)
}

impl<'a> BoxSplitter<'a> {
    /// The next box of a file, whose body may be cut.
    #[tactic(auto, unfolding(crate::specs::HeifFile::file_box_at))]
    pub fn file_box(&mut self) -> Result<FileBox<'a>, Error>
        ensures { Takes file_box_view result self.new (file_box_at self.old) }
    {
        if !self.has_header() {
            return Err(Error::InvalidFormat("Broken HEIF file"));
        }
        let header = self.header()?;
        Ok(FileBox {
            kind: header.kind,
            len: header.len,
            body: self.slice_up_to(header.len),
        })
    }
}

fn is_heif_brand(brand: &[u8]) -> bool
    ensures { result ≡ is_heif_brand brand.now }
{
    brand == b"mif1".as_slice() || brand == b"msf1".as_slice()
}

// Whether a text of brands, of 4 bytes each, has one of HEIF.
fn any_heif_brand(brands: &[u8]) -> bool
    ensures { result ≡ list_any is_heif_brand (fours brands.now) }
{
    let mut rest = brands;
    while rest.len() >= 4 {
        let (brand, others) = rest.split_at(4);
        if is_heif_brand(brand) {
            return true;
        }
        rest = others;
    }
    false
}

// Whether the body of an `ftyp` box has a brand of HEIF.
#[tactic(auto, using(crate::proofs::FileBoxes::no_brand_in))]
fn has_heif_brand(body: &[u8]) -> bool
    ensures { result ≡ has_heif_brand body.now }
{
    body.len() >= 8 && any_heif_brand(&body[8..])
}

fn check_brand(body: &[u8]) -> Result<(), Error>
    ensures { Answers (λ u. u) result (brand_checked body.now) }
{
    if body.len() < 8 {
        return Err(Error::InvalidFormat("Box too small"));
    }
    if !any_heif_brand(&body[8..]) {
        return Err(Error::InvalidFormat("No compatible brand recognized in ISO base media file"));
    }
    Ok(())
}

/// Passes over a box before `meta`; the answer is whether an `ftyp` was seen.
pub fn pass(kind: Kind, len: u64, body: &[u8], seen: bool) -> Result<bool, Error>
    ensures { Answers (λ b. b) result (passed seen kind len body.now) }
{
    if let Kind::FileType = kind {
        check_brand(whole(len, body)?)?;
        return Ok(true);
    }
    if len > i64::MAX as u64 {
        return Err(Error::InvalidFormat("Large seek not supported"));
    }
    Ok(seen)
}

/// The first `meta` of a file.
#[derive(Clone, Copy)]
pub struct Meta<'a> {
    /// Its body.
    pub body: &'a [u8],
    /// What follows it.
    pub behind: &'a [u8],
}

/// The first `meta` box, which follows an `ftyp` with a brand of HEIF.
pub fn meta_of(file: &[u8]) -> Result<Meta, Error>
    ensures body { Answers (λ m. m.body.now) result (meta_body file.now) }
    ensures behind { IfOk result (λ m. m.behind.now ≡ behind_meta file.now) }
{
    let mut boxes = BoxSplitter::new(file);
    let mut seen = false;
    while !boxes.is_empty() {
        let part = boxes.file_box()?;
        if let Kind::Meta = part.kind {
            if !seen {
                return Err(Error::InvalidFormat("MetaBox found before FileTypeBox"));
            }
            let body = whole(part.len, part.body)?;
            let behind = boxes.rest();
            return Ok(Meta { body, behind });
        }
        seen = pass(part.kind, part.len, part.body, seen)?;
    }
    Err(Error::NotFound("HEIF"))
}

/// Whether these bytes, at the front of a file, begin as a HEIF file does.
pub fn is_heif(bytes: &[u8]) -> bool
    ensures { result ≡ begins_heif bytes.now }
{
    let mut boxes = BoxSplitter::new(bytes);
    while let Ok((kind, body)) = boxes.child_box() {
        if let Kind::FileType = kind {
            return has_heif_brand(body.into_rest());
        }
    }
    false
}
