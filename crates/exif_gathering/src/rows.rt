//! What the row of a picture has, and which rows of pictures that were not seen stay.

ghost use Rattle.std.specs.Prelude.{◌≡◌, ◌≢◌, ◌↔◌, ◌++◌, IfOk, IsTrue, OnOk, map, option_map, string_bytes};
ghost use Rattle.std.specs.declared.io.ErrorKind.TheVariants.{NotFound};
ghost use Rattle.sha2.specs.Sha256.{sha256};
ghost use Rattle.exif_catalog.specs.Values.{stored};
ghost use Rattle.exif_formats.specs.Formats.{format_name};
ghost use Rattle.exif_json.specs.Flat.{mime_type};
ghost use Rattle.exif_gathering.specs.Rows.{any_below, hex_pair, hex_text, is_whole, known_stamp, row_for};

use exif::Exif;
use exif_catalog::{PictureFile, SqlValue, Stamp, is_below, row_values};
use exif_formats::PictureFormat;
use exif_inputs::FileStamp;
use exif_json::mime_type;
use sha2::{Digest, Sha256};
use std::alloc::{AllocError, Global};
use std::io::ErrorKind;

/// What a file is, where all of that is known.
pub fn known_stamp(stamp: FileStamp) -> Option<Stamp>
    ensures { result ≡ known_stamp stamp }
{
    Some(Stamp {
        size: stamp.size?,
        modified: stamp.modified?,
        modified_ns: stamp.modified_ns?,
        changed: stamp.changed?,
        changed_ns: stamp.changed_ns?,
        device: stamp.device?,
        inode: stamp.inode?,
    })
}

/// Whether what is below a name is not known, by why it can't be followed: unless nothing has it.
pub fn is_hidden(kind: ErrorKind) -> bool
    ensures { IsTrue result ↔ (kind ≢ NotFound) }
{
    kind != ErrorKind::NotFound
}

/// Whether all that is below a root was looked through: the run has no conditions, since a picture
/// that does not meet them is there all the same, and no name that could not be followed is below
/// the root.
pub fn is_whole(has_conditions: bool, failed: &[String], root: &str) -> bool
    ensures { result ≡ is_whole has_conditions (map string_bytes failed.now) root.now }
{
    !has_conditions && !has_below(failed, root)
}

// Whether one of the paths is a root, or below it.
fn has_below(paths: &[String], root: &str) -> bool
    ensures { result ≡ any_below (map string_bytes paths.now) root.now }
{
    for path in paths {
        if is_below(path.as_str(), root) {
            return true;
        }
    }
    false
}

// The name of a format, if it is known.
fn name_of(format: Option<PictureFormat>) -> Option<&'static str>
    ensures { option_map (λ text. text.now) result ≡ option_map format_name format }
{
    match format {
        Some(format) => Some(format.name()),
        None => None,
    }
}

// The media type of a format, if it is known.
fn media_type_of(format: Option<PictureFormat>) -> Option<&'static str>
    ensures { option_map (λ text. text.now) result ≡ option_map mime_type format }
{
    match format {
        Some(format) => Some(mime_type(format)),
        None => None,
    }
}

/// The row of a picture by what is known of its file, and its Exif data, if it has some.
pub fn row_for(
    alloc: Global,
    path: &[u8],
    stamp: FileStamp,
    hash: Option<&str>,
    format: Option<PictureFormat>,
    exif: Option<&Exif>,
) -> Result<Vec<SqlValue>, AllocError>
    ensures { IfOk result (λ row. map stored row.items ≡ row_for path.now stamp
        (option_map (λ t. t.now) hash.entry) format (option_map (λ e. e.now.fields) exif.entry)) }
{
    let file = PictureFile {
        path,
        size: stamp.size,
        modified: stamp.modified,
        modified_ns: stamp.modified_ns,
        changed: stamp.changed,
        changed_ns: stamp.changed_ns,
        device: stamp.device,
        inode: stamp.inode,
        hash,
        format: name_of(format),
        mime: media_type_of(format),
    };
    row_values(alloc, &file, exif)
}

/// The SHA-256 of bytes (FIPS 180-4), as hexadecimal digits.
pub fn hash_of(alloc: Global, bytes: &[u8]) -> Result<String, AllocError>
    ensures { IfOk result (λ text. string_bytes text ≡ hex_text (sha256 bytes.now)) }
{
    let digest = Sha256::digest(bytes);
    hex_of(alloc, &digest)
}

// Bytes as hexadecimal digits.
fn hex_of(alloc: Global, bytes: &[u8]) -> Result<String, AllocError>
    ensures { IfOk result (λ text. string_bytes text ≡ hex_text bytes.now) }
{
    let mut text = String::new(alloc);
    for byte in bytes {
        push_pair(&mut text, *byte)?;
    }
    Ok(text)
}

// Adds the two hexadecimal digits of a byte.
fn push_pair(text: &mut String, byte: u8) -> Result<(), AllocError>
    ensures { OnOk result (string_bytes text.new ≡ string_bytes text.old ++ hex_pair byte) }
{
    write!(text, "{byte:02x}")
}
