//! Writers of TIFF data: the fields and blocks of each directory, as they are pushed and set.

ghost use Rattle.std.specs.Prelude.{◌≡◌, ◌<◌, ◌≤◌, [], length, None, Some, false, IfSome, OnOk, OnErr, IfErr, IsErrAnd};
ghost use Rattle.std.specs.Io.KnownBytes.{Appends, Keeps};
ghost use Rattle.exif_base.specs.Device.{count_after};
ghost use Rattle.exif_base.specs.Orders.{order_named};
ghost use Rattle.exif_base.specs.Sent.{SendsFront};
ghost use Rattle.exif_types.specs.Refusals.{IsInterrupted, is_io, is_io_error, refusal_of};
ghost use Rattle.exif_layout.specs.Groups.{pushed, strips_set, tiles_set, jpeg_set};
ghost use Rattle.exif_layout.specs.Image.{image};
ghost use Rattle.exif_layout.specs.Layout.{LaidOut, LengthIsEnd, BlocksStand};
ghost use Rattle.exif_layout.specs.Ranged.{AreRanged, HavePlainTexts};
ghost use Rattle.exif_layout.specs.ReadBack.{ReadsBack, ReadsFirstEight};
ghost use Rattle.exif_layout.specs.Rewriting.{RewritesSame, RewritesInEachOrder, EqualByContents, OrdersAgree, LengthsAgree};
ghost use Rattle.exif_layout.specs.Refused.{write_fault};
ghost use Rattle.exif_layout.specs.WriteFaults.{write_refusal};
ghost use Rattle.exif_writer.specs.Contained.{ContainsItself};
ghost use Rattle.exif_layout.specs.Views.{blocks_of, grown};

use crate::measure::write_fault;
use crate::plan::plans;
use crate::send::send_image;
use exif_base::{Order, Sink};
use exif_containers::laws::tiff_data_stand_alone;
use exif_layout::laws::{images_are_canonical, images_are_laid_out, images_read_back};
use exif_layout::{Ifd, is_own, show_field_fits};
use exif_types::{Error, Field, In};
use std::alloc::{AllocError, Global};
use std::marker::Model;

/// A writer of fields and blocks as TIFF data (TIFF 6.0, sections 2 and 8; Exif 2.32, 4.5).
///
/// It borrows the fields and blocks that it is given, and takes memory for a list of references to
/// them. Fields that were read can be pushed as they are.
///
/// ```
/// let mut writer = Writer::new(alloc);
/// writer.push_field(&field)?;
/// writer.set_jpeg(thumbnail, In::THUMBNAIL)?;
/// let mut image = Counted::new(Vec::new(alloc));
/// writer.write(&mut image, false)?;
/// ```
#[derive(Debug, Drop)]
pub struct Writer<'a> {
    alloc: Global,
    ifds: Vec<Ifd<'a>>,
}

impl<'a> Model for Writer<'a> {
    ghost use Rattle.std.specs.Prelude.{List};
    ghost use Rattle.exif_layout.specs.Groups.{Group};
    ghost use Rattle.exif_layout.specs.Ranged.{AreRanged};

    ghost Value = { List Group };

    ghost view = { λ w. w.ifds.items };

    ghost invariant = { λ w. AreRanged w.ifds.items };
}

// The byte order that is requested.
fn order_of(little_endian: bool) -> Order
    ensures { result ≡ order_named little_endian }
{
    if little_endian {
        Order::Little
    } else {
        Order::Big
    }
}

// Makes the directories up to a number, or none of them.
fn grow<'a>(alloc: Global, ifds: &mut Vec<Ifd<'a>>, number: usize) -> Result<(), AllocError>
    requires { number < 65536 }
    ensures made { OnOk result (ifds.new.items ≡ grown number ifds.old.items) }
    ensures kept { OnErr result (ifds.new.items ≡ ifds.old.items) }
{
    let before = ifds.len();
    if number < before {
        return Ok(());
    }
    for _made in before..number + 1 {
        if ifds.push(Ifd::new(alloc)).is_err() {
            ifds.truncate(before);
            return Err(AllocError);
        }
    }
    Ok(())
}

impl<'a> Writer<'a> {
    /// A writer without a directory.
    pub fn new(alloc: Global) -> Writer<'a>
        ensures { result ≡ [] }
    {
        Writer {
            alloc,
            ifds: Vec::new(alloc),
        }
    }

    // The directories of the chain.
    fn ifds(&self) -> &[Ifd<'a>]
        ensures { result.now ≡ self.now }
    {
        self.ifds.as_slice()
    }

    /// Adds a field to the directory that its context and number name, behind those that were
    /// pushed before. Entries are written by their tags' numbers, equal ones as they were pushed.
    ///
    /// Nine tags are ignored, since the writer makes their fields itself: `StripOffsets`,
    /// `StripByteCounts`, `TileOffsets`, `TileByteCounts`, `JPEGInterchangeFormat`,
    /// `JPEGInterchangeFormatLength`, `ExifIFDPointer`, `GPSInfoIFDPointer` and
    /// `InteropIFDPointer`. A value of an unknown type is refused by `write`.
    ///
    /// The only error is `OutOfMemory`, and it leaves the writer as it was.
    pub fn push_field(&mut self, field: &'a Field) -> Result<(), Error>
        ensures pushed { OnOk result (self.new ≡ pushed field.now self.old) }
        ensures kept { OnErr result (self.new ≡ self.old) }
        ensures memory { IfErr result (λ e. e ≡ Error.OutOfMemory) }
    {
        if is_own(field.tag) {
            return Ok(());
        }
        show_field_fits(field);
        let number = usize::from(field.ifd_num.0);
        let before = self.ifds.len();
        grow(self.alloc, &mut self.ifds, number)?;
        if self.ifds[number].push(field).is_err() {
            self.ifds.truncate(before);
            return Err(Error::OutOfMemory);
        }
        Ok(())
    }

    /// Sets the strips of a directory, in place of any that were set: the pieces of its picture, in
    /// their order (TIFF 6.0, section 3). `StripOffsets` and `StripByteCounts` name them; the
    /// other tags of the picture are yours to push. The only error is `OutOfMemory`, and it leaves
    /// the writer as it was.
    pub fn set_strips(&mut self, strips: &'a [&'a [u8]], ifd_num: In) -> Result<(), Error>
        ensures set { OnOk result
            (self.new ≡ strips_set (blocks_of strips.entry.now) ifd_num.0 self.old) }
        ensures kept { OnErr result (self.new ≡ self.old) }
        ensures memory { IfErr result (λ e. e ≡ Error.OutOfMemory) }
    {
        let number = usize::from(ifd_num.0);
        grow(self.alloc, &mut self.ifds, number)?;
        self.ifds[number].set_strips(strips);
        Ok(())
    }

    /// Sets the tiles of a directory, in place of any that were set (TIFF 6.0, section 15).
    /// `TileOffsets` and `TileByteCounts` name them. The only error is `OutOfMemory`, and it
    /// leaves the writer as it was.
    pub fn set_tiles(&mut self, tiles: &'a [&'a [u8]], ifd_num: In) -> Result<(), Error>
        ensures set { OnOk result
            (self.new ≡ tiles_set (blocks_of tiles.entry.now) ifd_num.0 self.old) }
        ensures kept { OnErr result (self.new ≡ self.old) }
        ensures memory { IfErr result (λ e. e ≡ Error.OutOfMemory) }
    {
        let number = usize::from(ifd_num.0);
        grow(self.alloc, &mut self.ifds, number)?;
        self.ifds[number].set_tiles(tiles);
        Ok(())
    }

    /// Sets the JPEG stream of a directory, in place of one that was set: the thumbnail, in
    /// `In::THUMBNAIL` (Exif 2.32, 4.5.5). `JPEGInterchangeFormat` and
    /// `JPEGInterchangeFormatLength` name it. The bytes are not looked at. The only error is
    /// `OutOfMemory`, and it leaves the writer as it was.
    pub fn set_jpeg(&mut self, jpeg: &'a [u8], ifd_num: In) -> Result<(), Error>
        ensures set { OnOk result (self.new ≡ jpeg_set jpeg.now ifd_num.0 self.old) }
        ensures kept { OnErr result (self.new ≡ self.old) }
        ensures memory { IfErr result (λ e. e ≡ Error.OutOfMemory) }
    {
        let number = usize::from(ifd_num.0);
        grow(self.alloc, &mut self.ifds, number)?;
        self.ifds[number].set_jpeg(jpeg);
        Ok(())
    }

    /// Sends the image of what was pushed and set as TIFF data, and flushes once. The writer keeps
    /// its fields and blocks. With `little_endian` the least byte of a number is first (`II`),
    /// else the greatest (`MM`); both images have one length and say the same.
    ///
    /// It is refused where there is no directory, and else for the first directory of the chain
    /// that has no entry, a directory of more than 65,535 entries or a value of an unknown type,
    /// and else where the image is longer than 4,294,967,295 bytes. These refusals take no
    /// memory. After them and where memory runs out nothing was sent, and after an error of the
    /// sink exactly a beginning of the image.
    pub fn write<W: Sink>(&mut self, out: &mut W, little_endian: bool) -> Result<(), Error>
        ensures same { self.new ≡ self.old }
        ensures sent { OnOk result
            (Appends (W.taken out.old) (W.taken out.new)
            (image (order_named little_endian) self.old)) }
        ensures accepted { OnOk result (write_fault self.old ≡ None) }
        ensures refused { IfSome (write_fault self.old)
            (λ cause. IsErrAnd result (λ e. refusal_of e ≡ Some (write_refusal cause))) }
        ensures interrupted { IfErr result (λ e. write_fault self.old ≡ None → IsInterrupted e) }
        ensures kept { IfErr result
            (λ e. is_io_error e ≡ false → Keeps (W.taken out.old) (W.taken out.new)) }
        ensures front { OnErr result
            (SendsFront (W.taken out.old) (W.taken out.new)
            (image (order_named little_endian) self.old)) }
        ensures count { W.failures out.new ≡ count_after (is_io result) (W.failures out.old) }
        ensures through { W.through out.new ≡ W.through out.old }
        ensures ranged { AreRanged self.old }
        ensures laid_out { OnOk result (LaidOut (order_named little_endian) self.old) }
        ensures length { OnOk result (LengthIsEnd (order_named little_endian) self.old) }
        ensures contained { OnOk result
            (ContainsItself (image (order_named little_endian) self.old)) }
        ensures blocks { OnOk result (BlocksStand (order_named little_endian) self.old) }
        ensures read_back { OnOk result
            (HavePlainTexts self.old → length self.old ≤ 8
            → ReadsBack (order_named little_endian) self.old) }
        ensures first_eight { OnOk result
            (HavePlainTexts self.old → ReadsFirstEight (order_named little_endian) self.old) }
        ensures rewriting { OnOk result (RewritesSame (order_named little_endian) self.old) }
        ensures each_order { OnOk result (HavePlainTexts self.old → length self.old ≤ 8
            → RewritesInEachOrder (order_named little_endian) self.old) }
        ensures equality { OnOk result
            (HavePlainTexts self.old → length self.old ≤ 8
            → EqualByContents (order_named little_endian) self.old) }
        ensures lengths { OnOk result (LengthsAgree self.old) }
        ensures orders { OnOk result (HavePlainTexts self.old → OrdersAgree self.old) }
    {
        self.show_ranged();
        if let Some(fault) = write_fault(self.ifds()) {
            return Err(Error::from(fault));
        }
        let plans = plans(self.alloc, self.ifds())?;
        send_image(out, order_of(little_endian), plans.as_slice())?;
        self.show_laws(little_endian);
        Ok(())
    }

    // The numbers of the groups fit their types, which is the writer's invariant. This does
    // nothing.
    fn show_ranged(&self)
        ensures { AreRanged self.now }
    {
        let _ = &self.ifds;
    }

    // What is known of the image. This does nothing: its contract shows it. The first line brings
    // the writer's invariant.
    fn show_laws(&self, little_endian: bool)
        requires { write_fault self.now ≡ None }
        ensures laid_out { LaidOut (order_named little_endian) self.now }
        ensures length { LengthIsEnd (order_named little_endian) self.now }
        ensures contained { ContainsItself (image (order_named little_endian) self.now) }
        ensures blocks { BlocksStand (order_named little_endian) self.now }
        ensures read_back { HavePlainTexts self.now → length self.now ≤ 8
            → ReadsBack (order_named little_endian) self.now }
        ensures first_eight { HavePlainTexts self.now
            → ReadsFirstEight (order_named little_endian) self.now }
        ensures rewriting { RewritesSame (order_named little_endian) self.now }
        ensures each_order { HavePlainTexts self.now → length self.now ≤ 8
            → RewritesInEachOrder (order_named little_endian) self.now }
        ensures equality { HavePlainTexts self.now → length self.now ≤ 8
            → EqualByContents (order_named little_endian) self.now }
        ensures lengths { LengthsAgree self.now }
        ensures orders { HavePlainTexts self.now → OrdersAgree self.now }
    {
        let _ = &self.ifds;
        images_are_laid_out();
        images_read_back();
        images_are_canonical();
        tiff_data_stand_alone();
    }
}
