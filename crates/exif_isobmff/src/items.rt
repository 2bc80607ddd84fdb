//! Which item holds the Exif data.

ghost use Rattle.std.specs.Prelude.{Option, Ok, option_to_list};
ghost use Rattle.exif_types.specs.Refusals.{Answers, last_read};
ghost use Rattle.exif_isobmff.specs.Items.{exif_number, exif_numbers};
ghost use Rattle.exif_isobmff.specs.Boxes.{whole_part, read_one, from_count};
ghost use Rattle.exif_isobmff.specs.declared.kind.Kind.TheVariants.{ItemInfoEntry};

use crate::{BoxSplitter, Kind};
use exif_types::Error;

// The number of the item that an entry is about, where its type is `Exif`.
#[tactic(auto, unfolding(crate::specs::Items::exif_number))]
fn exif_number(mut entry: BoxSplitter) -> Result<Option<u32>, Error>
    ensures { Answers option_to_list result (exif_number entry.entry) }
{
    let number = match entry.fullbox_version()? {
        2 => u32::from(entry.uint16()?),
        3 => entry.uint32()?,
        _ => return Err(Error::InvalidFormat("Unsupported ItemInfoEntry")),
    };
    let _protection = entry.slice(2)?;
    let is_exif = entry.slice(4)? == b"Exif".as_slice();
    Ok(is_exif.then_some(number))
}

// The same of a box, where it is an entry.
fn number_of(kind: Kind, body: BoxSplitter) -> Result<Option<u32>, Error>
    ensures { Answers option_to_list result
        (read_one ItemInfoEntry exif_number (whole_part kind body.entry)) }
{
    match kind {
        Kind::ItemInfoEntry => exif_number(body),
        _ => Ok(None),
    }
}

// The last Exif item of the next boxes, as many as are counted, or the one that was found before.
fn exif_item_of(count: u32, mut rest: BoxSplitter, found: Option<u32>) -> Result<Option<u32>, Error>
    ensures { Answers
        (λ o. o) result (from_count ItemInfoEntry exif_number found count rest.entry) }
{
    let mut last = found;
    for _ in 0..count {
        let (kind, body) = rest.child_box()?;
        last = number_of(kind, body)?.or(last);
    }
    Ok(last)
}

/// The last Exif item that an `iinf` box names, or the one that was found before.
#[tactic(auto, unfolding(crate::specs::Items::exif_numbers))]
pub fn exif_item(mut body: BoxSplitter, found: Option<u32>) -> Result<Option<u32>, Error>
    ensures { Answers (λ o. o) result (last_read found (exif_numbers body.entry)) }
{
    let count = match body.fullbox_version()? {
        0 => u32::from(body.uint16()?),
        _ => body.uint32()?,
    };
    exif_item_of(count, body, found)
}
