//! The regions of Exif data that fields have and that may say a location.

ghost use Rattle.std.specs.Prelude.{◌≡◌, ◌++◌, ◌+◌, ◌≤◌, All, length, IfOk, OnOk};
ghost use Rattle.exif_base.specs.Orders.{number_of};
ghost use Rattle.exif_data_locations.specs.FieldRegions.{all_regions, field_regions, held_by, held_in, outside_regions, span_regions, value_regions};
ghost use Rattle.exif_data_locations.specs.Regions.{LiesIn};
ghost use Rattle.exif_edit_base.specs.Spans.{value_span};

use crate::reason::Reason;
use crate::region::{Region, What};
use crate::resource::add_resources;
use crate::tags::geo_tiff_tags;
use exif_base::Order;
use exif_edit_base::EntryOffset;
use exif_edit_base::patch::Span;
use exif_edit_base::read::number16;
use exif_edit_base::spans::value_span;
use exif_types::{Context, Field, FieldType, Tag};
use std::alloc::{AllocError, Global};

/// What the value of a field holds.
#[derive(Clone, Copy)]
pub enum Holds {
    /// This.
    One(What),
    /// Resources of Photoshop.
    Resources,
}

// What the value of a tag with this number holds.
fn held_by(number: u16) -> Option<Holds>
    ensures { result ≡ held_by number }
{
    match number {
        700 => Some(Holds::One(What::Xmp)),
        33723 => Some(Holds::One(What::Iptc)),
        34377 => Some(Holds::Resources),
        _ if geo_tiff_tags().contains(&number) => Some(Holds::One(What::GeoTiff)),
        _ => None,
    }
}

/// What the value of a tag holds that may say a location.
pub fn held_in(tag: Tag) -> Option<Holds>
    ensures { result ≡ held_in tag }
{
    match tag.0 {
        Context::Tiff => held_by(tag.1),
        Context::Exif | Context::Gps | Context::Interop => None,
    }
}

// Adds the regions of a span that holds this.
fn add_span(
    tag: u16,
    holds: Holds,
    span: Span,
    bytes: &[u8],
    regions: &mut Vec<Region>,
) -> Result<(), AllocError>
    requires span { span.offset + span.len ≤ length bytes.now }
    requires old { All (LiesIn (length bytes.now)) regions.old.items }
    ensures value { OnOk result (regions.new.items ≡ regions.old.items
        ++ span_regions tag holds span bytes.now) }
    ensures new { OnOk result (All (LiesIn (length bytes.now)) regions.new.items) }
{
    let offset = span.offset as usize;
    match holds {
        Holds::Resources => add_resources(tag, bytes, offset, span.len, regions),
        Holds::One(what) => {
            regions.push(Region {
                tag,
                offset,
                len: span.len,
                what,
            })?;
            Ok(())
        }
    }
}

// Adds the regions of a value, if it is outside of its entry.
fn add_outside(
    tag: u16,
    holds: Holds,
    span: Span,
    bytes: &[u8],
    regions: &mut Vec<Region>,
) -> Result<(), AllocError>
    requires span { span.offset + span.len ≤ length bytes.now }
    requires old { All (LiesIn (length bytes.now)) regions.old.items }
    ensures value { OnOk result (regions.new.items ≡ regions.old.items
        ++ outside_regions tag holds span bytes.now) }
    ensures new { OnOk result (All (LiesIn (length bytes.now)) regions.new.items) }
{
    if span.len == 0 {
        return Ok(());
    }
    add_span(tag, holds, span, bytes, regions)
}

// Adds the regions of the value of the entry at an offset.
fn add_value(
    order: Order,
    bytes: &[u8],
    tag: u16,
    holds: Holds,
    entry: u32,
    regions: &mut Vec<Region>,
) -> Result<(), AllocError>
    requires whole { entry + 12 ≤ length bytes.now }
    requires old { All (LiesIn (length bytes.now)) regions.old.items }
    ensures value { OnOk result (regions.new.items ≡ regions.old.items
        ++ value_regions (number_of order) bytes.now tag holds entry) }
    ensures new { OnOk result (All (LiesIn (length bytes.now)) regions.new.items) }
{
    match FieldType::of(number16(order, bytes, entry as usize + 2)) {
        Some(_) => {
            let span = value_span(order, bytes, entry);
            add_outside(tag, holds, span, bytes, regions)
        }
        None => {
            let left = Holds::One(What::Residual(Reason::TypeNotKnown(tag)));
            add_span(tag, left, Span { offset: 0, len: 0 }, bytes, regions)
        }
    }
}

// Adds the regions of a field, whose entry is at an offset.
fn add_field(
    order: Order,
    bytes: &[u8],
    tag: Tag,
    entry: u32,
    regions: &mut Vec<Region>,
) -> Result<(), AllocError>
    requires { All (LiesIn (length bytes.now)) regions.old.items }
    ensures value { OnOk result (regions.new.items ≡ regions.old.items
        ++ field_regions (number_of order) bytes.now tag entry) }
    ensures new { OnOk result (All (LiesIn (length bytes.now)) regions.new.items) }
{
    if bytes.len() < entry as usize + 12 {
        return Ok(());
    }
    match held_in(tag) {
        Some(holds) => add_value(order, bytes, tag.1, holds, entry, regions),
        None => Ok(()),
    }
}

/// The regions of fields that have their entries at these offsets.
pub fn regions_of(
    alloc: Global,
    order: Order,
    bytes: &[u8],
    fields: &[Field],
    entries: &[EntryOffset],
) -> Result<Vec<Region>, AllocError>
    ensures value { IfOk result (λ regions. regions.items
        ≡ all_regions (number_of order) bytes.now fields.now entries.now) }
    ensures within { IfOk result (λ regions.
        All (LiesIn (length bytes.now)) regions.items) }
{
    let mut regions = Vec::new(alloc);
    for (field, offset) in fields.iter().zip(entries) {
        add_field(order, bytes, field.tag, offset.entry, &mut regions)?;
    }
    Ok(regions)
}
