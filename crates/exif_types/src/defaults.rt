//! What stands for the value of an absent tag.

ghost use Rattle.std.specs.Prelude.{◌≡◌, [], ◌∷◌, IfOk};
ghost use Rattle.exif_table.specs.View.{default_view};
ghost use Rattle.exif_types.specs.Defaults.{default_as};

use crate::{Rational, Value};
use exif_base::Items;
use exif_table::DefaultValue;
use std::alloc::{AllocError, Global};

impl Value {
    // A default of the tag table as a value.
    pub(crate) fn of_default(
        alloc: Global,
        default: DefaultValue,
    ) -> Result<Option<Value>, AllocError>
        ensures { IfOk result (λ value. value ≡ default_as (default_view default)) }
    {
        Ok(match default {
            DefaultValue::Byte(bytes) => Some(Value::Byte(Items::from_slice(alloc, bytes)?)),
            DefaultValue::Ascii(text) => Some(Value::Ascii(one_text(alloc, text)?)),
            DefaultValue::Short(items) => Some(Value::Short(Items::from_slice(alloc, items)?)),
            DefaultValue::Rational(num, denom) => {
                let fraction = [Rational { num, denom }];
                Some(Value::Rational(Items::from_slice(alloc, &fraction)?))
            }
            DefaultValue::Undefined(bytes) => {
                Some(Value::Undefined(Items::from_slice(alloc, bytes)?, 0))
            }
            DefaultValue::None | DefaultValue::ContextDependent | DefaultValue::Unspecified => None,
        })
    }
}

// A list of one text.
fn one_text(alloc: Global, text: &[u8]) -> Result<Items<Items<u8>>, AllocError>
    ensures { IfOk result (λ texts. texts ≡ text.now ∷ []) }
{
    let mut texts = Vec::with_capacity(alloc, 1)?;
    texts.push(Items::from_slice(alloc, text)?)?;
    Ok(Items::from_vec(texts))
}
