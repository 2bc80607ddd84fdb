//! Boxes in memory, by their types.

ghost use Rattle.std.specs.Prelude.{◌≡◌, [], IfOk, IfErr, Ok, Err, Some};
ghost use Rattle.std.specs.Option.{option_map};
ghost use Rattle.exif_types.specs.Refusals.{Answers, refusal_of};
ghost use Rattle.exif_segments.specs.Answer.{IsNamed};
ghost use Rattle.exif_formats.specs.Cr3.{broken_cr3, cr3_refusals, first_box, first_held, held_by};
ghost use Rattle.exif_formats.specs.Cr3Steps.{box_view};

use exif_isobmff::BoxSplitter;
use exif_types::Error;

/// What a box that is not whole is called.
pub const BROKEN: &str = "Broken CR3 file";

/// A box: its type, and its payload.
#[derive(Clone, Copy)]
pub struct NamedBox<'a> {
    name: &'a [u8],
    payload: &'a [u8],
}

// The next box. `BoxSplitter` knows the types of HEIF files only, so the type is read here.
fn next_box<'a>(boxes: &mut BoxSplitter<'a>) -> Result<NamedBox<'a>, Error>
    ensures taken { IfOk result (λ b. first_box boxes.old ≡ Ok (box_view b boxes.new)) }
    ensures refused { IfErr result (λ e. (first_box boxes.old ≡ Err broken_cr3)
        × (refusal_of e ≡ Some broken_cr3)) }
{
    let bytes = boxes.rest();
    let Ok((_kind, payload)) = boxes.child_box() else {
        return Err(Error::InvalidFormat(BROKEN));
    };
    let name = &bytes[4..8];
    let payload = payload.into_rest();
    Ok(NamedBox { name, payload })
}

// What the box holds, where it is of this type.
fn held_by<'a>(named: NamedBox<'a>, name: &[u8], usertype: &[u8]) -> Option<&'a [u8]>
    ensures { option_map (λ b. b.now) result ≡ held_by name.now usertype.now
        (box_view named.entry []) }
{
    if named.name != name || named.payload.len() < usertype.len() {
        return None;
    }
    let (front, held) = named.payload.split_at(usertype.len());
    if front != usertype {
        return None;
    }
    Some(held)
}

/// What the first box of a type holds: a type of `uuid` has 16 bytes more.
pub fn first_held<'a>(
    bytes: &'a [u8],
    name: &[u8],
    usertype: &[u8],
) -> Result<Option<&'a [u8]>, Error>
    ensures answers { Answers (option_map (λ b. b.now)) result
        (first_held name.now usertype.now bytes.now) }
    ensures named { IfErr result (IsNamed cr3_refusals) }
{
    let mut boxes = BoxSplitter::new(bytes);
    while !boxes.is_empty() {
        let next = next_box(&mut boxes)?;
        if let Some(payload) = held_by(next, name, usertype) {
            return Ok(Some(payload));
        }
    }
    Ok(None)
}
