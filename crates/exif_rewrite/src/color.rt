//! A file without its colour profile.

ghost use Rattle.std.specs.Prelude.{◌≡◌, ◌++◌, [], take, drop, IfOk, OnOk};
ghost use Rattle.std.specs.Option.{option_map};
ghost use Rattle.exif_parts.specs.Webp.{without};
ghost use Rattle.exif_rewrite.specs.Color.{colorless, if_stays, is_profile, settled, shrunk, unflagged, with_staying, without_profiles};

use exif_base::{Endian, LittleEndian};
use exif_inventory::{Kind, Part, inventory};
use std::alloc::{AllocError, Global};

// The flag of a colour profile in the extended header of a WebP file, and its offset.
const PROFILE: u8 = 0x20;

const FLAGS: usize = 20;

// Whether a part is of a colour profile.
fn is_profile(kind: Kind) -> bool
    ensures { result ≡ is_profile kind }
{
    matches!(kind, Kind::IccProfile)
}

// The first bytes of a list, so many if there are, and the rest.
fn split(len: usize, bytes: &[u8]) -> (&[u8], &[u8])
    ensures front { result.0.now ≡ take len bytes.now }
    ensures rest { result.1.now ≡ drop len bytes.now }
{
    if len < bytes.len() {
        (&bytes[..len], &bytes[len..])
    } else {
        (bytes, &[])
    }
}

// Adds the bytes of a part, if it stays.
fn add_staying(part: Part, bytes: &[u8], new: &mut Vec<u8>) -> Result<(), AllocError>
    ensures { OnOk result (new.new.items ≡ new.old.items ++ if_stays part bytes.now) }
{
    if is_profile(part.kind) {
        return Ok(());
    }
    new.extend_from_slice(bytes)
}

// The bytes of the parts that stay.
fn staying(alloc: Global, parts: &[Part], file: &[u8]) -> Result<Vec<u8>, AllocError>
    ensures { IfOk result (λ new. new.items ≡ with_staying parts.now file.now []) }
{
    let mut new = Vec::new(alloc);
    let mut rest = file;
    for part in parts {
        let (bytes, behind) = split(part.len, rest);
        add_staying(*part, bytes, &mut new)?;
        rest = behind;
    }
    Ok(new)
}

// The flags without that of a colour profile.
fn without_profile(flags: u8) -> u8
    ensures { result ≡ without 32 flags }
{
    if (flags / PROFILE) % 2 == 1 {
        flags - PROFILE
    } else {
        flags
    }
}

// Counts so many bytes less in the header of a WebP file.
#[tactic(auto, unfolding(crate::specs::Color::shrunk))]
fn shrink(by: usize, file: &mut [u8])
    ensures { file.new ≡ shrunk by file.old }
{
    if file.len() < 8 {
        return;
    }
    let size = LittleEndian::loadu32(file, 4) as usize;
    LittleEndian::writeu32(file, 4, size.saturating_sub(by) as u32);
}

// Takes the flag of a colour profile out of the extended header of a WebP file.
#[tactic(auto, unfolding(crate::specs::Color::unflagged))]
fn unflag(file: &mut [u8])
    ensures { file.new ≡ unflagged file.old }
{
    if file.len() > FLAGS && file[12..16] == b"VP8X"[..] {
        file[FLAGS] = without_profile(file[FLAGS]);
    }
}

// Settles the header of a file from which parts were taken out.
fn settle(old: &[u8], new: &mut [u8])
    ensures { new.new ≡ settled old.now new.old }
{
    if old.starts_with(b"RIFF") {
        shrink(old.len().saturating_sub(new.len()), new);
        unflag(new);
    }
}

/// The JPEG, WebP or PNG file without its colour profile: its `ICC_PROFILE` segments, its `ICCP`
/// chunk, whose size and flag the header loses, or its `iCCP` chunk. All other bytes stay, in their
/// order. A JPEG XL file stays as it is: its profile is part of the picture. `None` for a file of
/// another format. It takes the memory of the new file.
pub fn without_color_profile(alloc: Global, file: &[u8]) -> Result<Option<Vec<u8>>, AllocError>
    ensures { IfOk result (λ new. option_map (λ v. v.items) new ≡ colorless file.now) }
{
    let Some(parts) = inventory(alloc, file)? else {
        return Ok(None);
    };
    let mut new = staying(alloc, &parts, file)?;
    settle(file, &mut new);
    Ok(Some(new))
}
