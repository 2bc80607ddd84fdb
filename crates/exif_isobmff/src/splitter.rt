//! Boxes inside a box, cut off its bytes from the front.

ghost use Rattle.std.specs.Prelude.{nat_le, take, drop, ◌≡◌, ◌==◌, ◌<◌, ◌≤◌, ℕ, List, length};
ghost use Rattle.exif_types.specs.Refusals.{invalid_format, Takes};
ghost use Rattle.exif_isobmff.specs.Boxes.{bytes_at, number_at, version_at, header_len, header_at, box_at, whole_part};
ghost use Rattle.exif_isobmff.specs.ItemLocations.{sized_at};

use crate::Kind;
use byteorder::{BigEndian, ByteOrder};
use exif_inventory::boxes::{box_header, name_of};
use exif_types::Error;
use std::marker::Model;

/// The bytes of a box that were not read yet.
#[derive(Drop)]
pub struct BoxSplitter<'a> {
    rest: &'a [u8],
}

impl<'a> Model for BoxSplitter<'a> {
    ghost Value = { List ℕ };

    ghost view = { λ s. s.rest.now };
}

impl<'a> BoxSplitter<'a> {
    /// All of these bytes.
    pub fn new(bytes: &'a [u8]) -> BoxSplitter<'a>
        ensures { result ≡ bytes.now }
    {
        BoxSplitter { rest: bytes }
    }

    /// Whether all bytes were read.
    pub fn is_empty(&self) -> bool
        ensures { result ≡ (length self.now == 0) }
    {
        self.rest.is_empty()
    }

    /// All bytes that are left, which stay.
    pub fn rest(&self) -> &'a [u8]
        ensures { result.now ≡ self.now }
    {
        self.rest
    }

    /// All bytes that are left.
    pub fn into_rest(self) -> &'a [u8]
        ensures { result.now ≡ self.entry }
    {
        self.rest
    }

    /// The next bytes, as many as are requested, else `Box too small`.
    ///
    /// After an error of this call or of any other below, how far the splitter was read is left
    /// open.
    pub fn slice(&mut self, len: usize) -> Result<&'a [u8], Error>
        ensures { Takes (λ bytes. bytes.now) result self.new (bytes_at len self.old) }
    {
        if self.rest.len() < len {
            return Err(Error::InvalidFormat("Box too small"));
        }
        let (front, rest) = self.rest.split_at(len);
        self.rest = rest;
        Ok(front)
    }

    /// The next bytes, as many as are requested, or all that are left.
    pub fn slice_up_to(&mut self, len: u64) -> &'a [u8]
        ensures front { result.now ≡ take len self.old }
        ensures rest { self.new ≡ drop len self.old }
    {
        if (self.rest.len() as u64) <= len {
            let all = self.rest;
            self.rest = &all[all.len()..];
            return all;
        }
        let (front, rest) = self.rest.split_at(len as usize);
        self.rest = rest;
        front
    }

    /// The number in the next two bytes, the highest first.
    pub fn uint16(&mut self) -> Result<u16, Error>
        ensures { Takes (λ n. n) result self.new (number_at 2 self.old) }
    {
        let bytes = self.slice(2)?;
        Ok(BigEndian::read_u16(bytes))
    }

    /// The number in the next four bytes, the highest first.
    pub fn uint32(&mut self) -> Result<u32, Error>
        ensures { Takes (λ n. n) result self.new (number_at 4 self.old) }
    {
        let bytes = self.slice(4)?;
        Ok(BigEndian::read_u32(bytes))
    }

    /// The number in the next eight bytes, the highest first.
    pub fn uint64(&mut self) -> Result<u64, Error>
        ensures { Takes (λ n. n) result self.new (number_at 8 self.old) }
    {
        let bytes = self.slice(8)?;
        Ok(BigEndian::read_u64(bytes))
    }

    /// The version of a full box: a byte, with three bytes of flags behind it.
    pub fn fullbox_version(&mut self) -> Result<u8, Error>
        ensures { Takes (λ n. n) result self.new (version_at self.old) }
    {
        let head = self.slice(4)?;
        Ok(head[0])
    }

    /// A number of 0, 4 or 8 bytes; another size is refused with this text.
    pub fn sized(&mut self, size: usize, refusal: &'static str) -> Result<u64, Error>
        ensures { Takes
            (λ n. n) result self.new (sized_at (invalid_format refusal.now) size self.old) }
    {
        match size {
            0 => Ok(0),
            4 => Ok(u64::from(self.uint32()?)),
            8 => self.uint64(),
            _ => Err(Error::InvalidFormat(refusal)),
        }
    }

    /// Whether the next box has a whole header.
    #[tactic(auto, using(crate::proofs::BoxHeaders::is_found))]
    pub fn has_header(&self) -> bool
        ensures { result ≡ nat_le (header_len self.now) (length self.now) }
    {
        box_header(self.rest).is_some()
    }

    /// The header of the next box, whose size is at least the header's, else `Invalid box size`.
    #[tactic(auto, using(crate::proofs::BoxHeaders::not_none))]
    pub fn header(&mut self) -> Result<Header, Error>
        requires { header_len self.old ≤ length self.old }
        ensures { Takes (λ h. h) result self.new (header_at self.old) }
    {
        let bytes = self.rest;
        let Some(header) = box_header(bytes) else {
            unreachable!()
        };
        let size = header.size.unwrap_or(bytes.len() as u64);
        if size < header.front as u64 {
            return Err(Error::InvalidFormat("Invalid box size"));
        }
        self.rest = &bytes[header.front..];
        Ok(Header {
            kind: Kind::of(name_of(bytes)),
            len: size - header.front as u64,
        })
    }

    /// The next box: its type and its body, which is whole, else `Box too small`.
    #[tactic(auto, unfolding(crate::specs::Boxes::box_at))]
    pub fn child_box(&mut self) -> Result<(Kind, BoxSplitter<'a>), Error>
        ensures { Takes (λ b. whole_part b.0 b.1) result self.new (box_at self.old) }
    {
        if !self.has_header() {
            return Err(Error::InvalidFormat("Box too small"));
        }
        let header = self.header()?;
        let body = self.slice(header.len as usize)?;
        Ok((header.kind, BoxSplitter::new(body)))
    }
}

/// The header of a box: its type, and how many bytes its body takes.
#[derive(Clone, Copy, Debug)]
pub struct Header {
    /// The box's type.
    pub kind: Kind,
    /// The length of its body in bytes.
    pub len: u64,
}
