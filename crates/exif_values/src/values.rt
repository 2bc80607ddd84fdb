//! What was read of the packets of a picture.

ghost use Rattle.std.specs.Prelude.{◌≡◌, map, OnOk};
ghost use Rattle.exif_values.specs.Values.{nothing, values_view, with_fault, with_iptc, with_properties};
ghost use Rattle.exif_xmp.specs.Properties.{property_view};

use crate::fault::{Cause, Fault};
use exif_iptc::{Value, read_lenient};
use exif_xmp::Property;
use std::alloc::{AllocError, Global};

/// How many XMP properties are listed at most.
pub const MAX_PROPERTIES: usize = 65_535;

/// The XMP properties and the IPTC values of a picture, in the order of its packets, and what was
/// not read.
///
/// Where a picture has several packets, which can have a property each, the first counts.
#[derive(Debug, Drop)]
pub struct Values {
    /// The XMP properties.
    pub xmp: Vec<Property>,
    /// The IPTC datasets with their names and values.
    pub iptc: Vec<Value>,
    /// What was not read.
    pub faults: Vec<Fault>,
}

impl Values {
    /// Nothing yet.
    pub fn new(alloc: Global) -> Values
        ensures { values_view result ≡ nothing }
    {
        Values {
            xmp: Vec::new(alloc),
            iptc: Vec::new(alloc),
            faults: Vec::new(alloc),
        }
    }

    // Adds the properties of a packet, if there are not too many.
    pub(crate) fn add_properties(
        &mut self,
        offset: Option<usize>,
        mut properties: Vec<Property>,
    ) -> Result<(), AllocError>
        ensures { OnOk result (values_view self.new
            ≡ with_properties offset (map property_view properties.items) (values_view self.old)) }
    {
        if MAX_PROPERTIES < self.xmp.len() + properties.len() {
            return self.add_fault(Cause::TooMany, offset);
        }
        self.xmp.append(&mut properties)?;
        Ok(())
    }

    // Adds what is not read.
    pub(crate) fn add_fault(
        &mut self,
        cause: Cause,
        offset: Option<usize>,
    ) -> Result<(), AllocError>
        ensures { OnOk result (values_view self.new
            ≡ with_fault cause offset (values_view self.old)) }
    {
        self.faults.push(Fault { cause, offset })?;
        Ok(())
    }

    // Adds the values of IPTC data.
    pub(crate) fn add_iptc(
        &mut self,
        alloc: Global,
        offset: Option<usize>,
        content: &[u8],
    ) -> Result<(), AllocError>
        ensures { OnOk result (values_view self.new
            ≡ with_iptc offset content.now (values_view self.old)) }
    {
        let mut reading = read_lenient(alloc, content)?;
        self.iptc.append(&mut reading.values)?;
        match reading.refusal {
            Some(refusal) => self.add_fault(Cause::Iptc(refusal), offset),
            None => Ok(()),
        }
    }
}
