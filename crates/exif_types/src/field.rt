//! Fields of TIFF data.

ghost use Rattle.std.specs.Prelude.{◌≡◌, ◌↔◌, IsTrue, IfOk, IfErr};
ghost use Rattle.exif_types.specs.FieldEq.{field_eq};
ghost use Rattle.exif_types.specs.Lookup.{is_named};

use crate::{Error, In, Tag, Value};
use std::alloc::Global;

/// A tag with its value, in a directory.
#[derive(Debug, Drop)]
pub struct Field {
    /// Its name: the kind of directory that it is in, and a number.
    pub tag: Tag,
    /// The directory of the chain that it is in, or that its own directory is below: the
    /// image's or the thumbnail's, say.
    pub ifd_num: In,
    /// Its value, with its type.
    pub value: Value,
}

impl Field {
    /// An equal field. The only error is out of memory.
    pub fn clone(&self, alloc: Global) -> Result<Field, Error>
        ensures equal { IfOk result (λ copy. copy ≡ self.now) }
        ensures memory { IfErr result (λ e. e ≡ Error.OutOfMemory) }
    {
        let value = self.value.clone(alloc)?;
        Ok(Field {
            tag: self.tag,
            ifd_num: self.ifd_num,
            value,
        })
    }

    // Whether the field has this tag and this number.
    pub(crate) fn is_named(&self, tag: Tag, ifd_num: In) -> bool
        ensures { result ≡ is_named tag ifd_num self.now }
    {
        self.tag == tag && self.ifd_num == ifd_num
    }
}

// Whether two fields have one name and hold the same.
fn is_same(a: &Field, b: &Field) -> bool
    ensures { result ≡ field_eq a.now b.now }
{
    b.is_named(a.tag, a.ifd_num) && a.value == b.value
}

impl PartialEq for Field {
    ghost use Rattle.std.specs.Cmp.{partial_equiv_from_equiv, decided};
    ghost use Rattle.exif_types.specs.FieldEq.{field_eq, field_Decides};

    ghost eq = { field_eq };

    ghost laws = { partial_equiv_from_equiv (decided field_eq field_Decides) };

    fn eq(&self, other: &Self) -> bool
        ensures computed { result ≡ field_eq self.now other.now }
        ensures equal { IsTrue result ↔ (self.now ≡ other.now) }
    {
        is_same(self, other)
    }
}

impl Eq for Field {
    ghost use Rattle.std.specs.Cmp.{decided};
    ghost use Rattle.exif_types.specs.FieldEq.{field_eq, field_Decides};

    ghost laws = { decided field_eq field_Decides };
}
