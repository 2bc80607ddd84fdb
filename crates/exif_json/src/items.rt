//! Items of values, each written as one JSON value.

ghost use Rattle.std.specs.Prelude.{◌≡◌, ◌++◌, map};
ghost use Rattle.json.specs.Tree.{json_tokens};
ghost use Rattle.exif_json.specs.Prints.{Prints};
ghost use Rattle.exif_json.specs.Trees.{array};

use crate::printer::Printer;
use crate::texts::write_text;
use exif::{Items, Rational, SRational};
use std::alloc::AllocError;

/// An item of a value.
pub(crate) trait Item {
    ghost use Rattle.json.specs.Json.{Json};

    /// What it is in JSON.
    ghost json: { Self → Json };

    /// Writes it.
    fn write(&self, printer: &mut Printer) -> Result<(), AllocError>
        ensures { Prints result printer.old.out printer.new.out (json_tokens (json self.now)) };
}

impl Item for u8 {
    ghost use Rattle.exif_json.specs.Trees.{unsigned};

    ghost json = { unsigned };

    fn write(&self, printer: &mut Printer) -> Result<(), AllocError> {
        printer.out.u64(u64::from(*self))
    }
}

impl Item for u16 {
    ghost use Rattle.exif_json.specs.Trees.{unsigned};

    ghost json = { unsigned };

    fn write(&self, printer: &mut Printer) -> Result<(), AllocError> {
        printer.out.u64(u64::from(*self))
    }
}

impl Item for u32 {
    ghost use Rattle.exif_json.specs.Trees.{unsigned};

    ghost json = { unsigned };

    fn write(&self, printer: &mut Printer) -> Result<(), AllocError> {
        printer.out.u64(u64::from(*self))
    }
}

impl Item for i8 {
    ghost use Rattle.exif_json.specs.Trees.{signed};

    ghost json = { signed };

    fn write(&self, printer: &mut Printer) -> Result<(), AllocError> {
        printer.out.i64(i64::from(*self))
    }
}

impl Item for i16 {
    ghost use Rattle.exif_json.specs.Trees.{signed};

    ghost json = { signed };

    fn write(&self, printer: &mut Printer) -> Result<(), AllocError> {
        printer.out.i64(i64::from(*self))
    }
}

impl Item for i32 {
    ghost use Rattle.exif_json.specs.Trees.{signed};

    ghost json = { signed };

    fn write(&self, printer: &mut Printer) -> Result<(), AllocError> {
        printer.out.i64(i64::from(*self))
    }
}

impl Item for Rational {
    ghost use Rattle.exif_json.specs.Values.{rational_json};

    ghost json = { rational_json };

    fn write(&self, printer: &mut Printer) -> Result<(), AllocError> {
        printer.out.begin_array()?;
        printer.out.u64(u64::from(self.num))?;
        printer.out.u64(u64::from(self.denom))?;
        printer.out.end_array()
    }
}

impl Item for SRational {
    ghost use Rattle.exif_json.specs.Values.{srational_json};

    ghost json = { srational_json };

    fn write(&self, printer: &mut Printer) -> Result<(), AllocError> {
        printer.out.begin_array()?;
        printer.out.i64(i64::from(self.num))?;
        printer.out.i64(i64::from(self.denom))?;
        printer.out.end_array()
    }
}

impl Item for Items<u8> {
    ghost use Rattle.exif_json.specs.Texts.{text_json};

    ghost json = { text_json };

    fn write(&self, printer: &mut Printer) -> Result<(), AllocError> {
        write_text(printer, self.as_slice())
    }
}

/// Writes an array of the items.
pub(crate) fn write_list<T: Item>(printer: &mut Printer, items: &[T]) -> Result<(), AllocError>
    ensures { Prints result printer.old.out printer.new.out
        (json_tokens (array (map T.json items.now))) }
{
    printer.out.begin_array()?;
    for item in items {
        item.write(printer)?;
    }
    printer.out.end_array()
}
