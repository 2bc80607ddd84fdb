//! Why the parts of a file may hold a location, one after the other.

ghost use Rattle.std.specs.Prelude.{◌≡◌, [], All, length, IfOk};
ghost use Rattle.exif_inventory.specs.Promises.{EndsIn};
ghost use Rattle.exif_privacy.specs.Judging.{first_reasons, next_reasons, reasons_view};

use crate::part::part_reasons;
use crate::portions::{data_of, join, joined_len};
use crate::remaining::Reason;
use exif_inventory::{Kind, Part};
use exif_locations::Unread;
use std::alloc::{AllocError, Global};

/// Why a part may hold a location.
#[derive(Drop)]
pub struct Reasons {
    /// The reasons: none, if it holds no location.
    pub whys: Vec<Reason>,
    /// How many parts follow that have the same: the other portions of an extended XMP packet.
    pub left: usize,
}

impl Reasons {
    /// None, before the first part.
    pub fn none(alloc: Global) -> Reasons
        ensures { reasons_view result ≡ ([], 0) }
    {
        Reasons {
            whys: Vec::new(alloc),
            left: 0,
        }
    }

    /// Those of the first of the parts that are left, behind those of the part before it.
    pub fn next(
        self,
        alloc: Global,
        unread: Unread,
        file: &[u8],
        parts: &[Part],
    ) -> Result<Reasons, AllocError>
        requires { All (EndsIn (length file.now)) parts.now }
        ensures { IfOk result (λ next. reasons_view next
            ≡ next_reasons unread file.now (reasons_view self) parts.now) }
    {
        match self.left {
            0 => first_reasons(alloc, unread, file, parts),
            left => Ok(Reasons {
                whys: self.whys,
                left: left - 1,
            }),
        }
    }
}

// Those of the first of these parts.
fn first_reasons(
    alloc: Global,
    unread: Unread,
    file: &[u8],
    parts: &[Part],
) -> Result<Reasons, AllocError>
    requires { All (EndsIn (length file.now)) parts.now }
    ensures { IfOk result (λ next. reasons_view next
        ≡ first_reasons unread file.now parts.now) }
{
    let Some(first) = parts.first() else {
        return Ok(Reasons::none(alloc));
    };
    let joined = joined_len(file, parts);
    if joined == 0 {
        let whys = part_reasons(alloc, unread, first.kind, data_of(file, *first))?;
        return Ok(Reasons { whys, left: 0 });
    }
    let packet = join(alloc, file, &parts[..joined])?;
    let whys = part_reasons(alloc, unread, Kind::Xmp, packet.as_slice())?;
    Ok(Reasons {
        whys,
        left: joined - 1,
    })
}
