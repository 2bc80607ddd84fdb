//! Values of fields.

ghost use Rattle.std.specs.Prelude.{◌≡◌, ◌↔◌, ◌<◌, ◌^◌, IsTrue, IfOk, IfErr, SomeIff};
ghost use Rattle.exif_types.specs.Texts.{ended_length};
ghost use Rattle.exif_types.specs.ValueEq.{value_eq};
ghost use Rattle.exif_types.specs.ValueTypes.{field_type_of, type_number, count_of};

use crate::{Error, FieldType, Rational, SRational};
use exif_base::Items;
use exif_text::{Contents, PlainText};
use std::alloc::{AllocError, Global};
use std::fmt;

/// What a field holds, by its type (TIFF 6.0, section 2, "Types").
#[derive(Drop)]
pub enum Value {
    /// Unsigned bytes.
    Byte(Items<u8>),
    /// Texts, each without the zero byte that ends it.
    Ascii(Items<Items<u8>>),
    /// Unsigned 16-bit numbers.
    Short(Items<u16>),
    /// Unsigned 32-bit numbers.
    Long(Items<u32>),
    /// Unsigned fractions.
    Rational(Items<Rational>),
    /// Signed bytes.
    SByte(Items<i8>),
    /// Bytes of any meaning, and the offset in the data where they begin.
    Undefined(Items<u8>, u32),
    /// Signed 16-bit numbers.
    SShort(Items<i16>),
    /// Signed 32-bit numbers.
    SLong(Items<i32>),
    /// Signed fractions.
    SRational(Items<SRational>),
    /// The bits of 32-bit floating point numbers (IEEE 754).
    Float(Items<u32>),
    /// The bits of 64-bit floating point numbers (IEEE 754).
    Double(Items<u64>),
    /// A type that is not known: its number, the count, and the offset of the value element.
    Unknown(u16, u32, u32),
}

impl Value {
    ghost use Rattle.std.specs.Prelude.{map};
    ghost use Rattle.exif_text.specs.Contents.{contents_view};
    ghost use Rattle.exif_types.specs.PlainValues.{plain_of};
    ghost use Rattle.exif_types.specs.declared.value.Value.TheVariants.{Ascii};

    /// A value of texts, each without the zero byte that ends it in a file.
    ///
    /// ```
    /// value: Value::ascii(alloc, &[name])?,
    /// ```
    pub fn ascii(alloc: Global, texts: &[&[u8]]) -> Result<Value, AllocError>
        ensures { IfOk result (λ value. value ≡ Ascii (map (λ text. text.now) texts.now)) }
    {
        let mut items = Vec::with_capacity(alloc, texts.len())?;
        for text in texts {
            items.push(Items::from_slice(alloc, *text)?)?;
        }
        Ok(Value::Ascii(Items::from_vec(items)))
    }

    // What the value holds, borrowed for printing.
    pub(crate) fn contents(&self) -> Contents<'_>
        ensures { contents_view result ≡ plain_of self.now }
    {
        match self {
            Value::Byte(items) => Contents::Byte(items.as_slice()),
            Value::Ascii(texts) => Contents::Ascii(texts.as_slice()),
            Value::Short(items) => Contents::Short(items.as_slice()),
            Value::Long(items) => Contents::Long(items.as_slice()),
            Value::Rational(items) => Contents::Rational(items.as_slice()),
            Value::SByte(items) => Contents::SByte(items.as_slice()),
            Value::Undefined(bytes, _) => Contents::Undefined(bytes.as_slice()),
            Value::SShort(items) => Contents::SShort(items.as_slice()),
            Value::SLong(items) => Contents::SLong(items.as_slice()),
            Value::SRational(items) => Contents::SRational(items.as_slice()),
            Value::Float(items) => Contents::Float(items.as_slice()),
            Value::Double(items) => Contents::Double(items.as_slice()),
            Value::Unknown(number, count, offset) => Contents::Unknown(*number, *count, *offset),
        }
    }

    /// The type of its items, if it is known.
    pub fn field_type(&self) -> Option<FieldType>
        ensures { result ≡ field_type_of self.now }
    {
        match self {
            Value::Byte(_) => Some(FieldType::Byte),
            Value::Ascii(_) => Some(FieldType::Ascii),
            Value::Short(_) => Some(FieldType::Short),
            Value::Long(_) => Some(FieldType::Long),
            Value::Rational(_) => Some(FieldType::Rational),
            Value::SByte(_) => Some(FieldType::SByte),
            Value::Undefined(_, _) => Some(FieldType::Undefined),
            Value::SShort(_) => Some(FieldType::SShort),
            Value::SLong(_) => Some(FieldType::SLong),
            Value::SRational(_) => Some(FieldType::SRational),
            Value::Float(_) => Some(FieldType::Float),
            Value::Double(_) => Some(FieldType::Double),
            Value::Unknown(_, _, _) => None,
        }
    }

    /// The number of its type, known or not.
    pub fn type_number(&self) -> u16
        ensures { result ≡ type_number self.now }
    {
        match self {
            Value::Unknown(number, _, _) => *number,
            known => known.field_type().map_or(0, FieldType::number),
        }
    }

    /// How many items it has, the zero behind each text counted, if 32 bits hold the number.
    pub fn count(&self) -> Option<u32>
        ensures { SomeIff result (count_of self.now < 2 ^ 32) (count_of self.now) }
    {
        let length = match self {
            Value::Byte(items) | Value::Undefined(items, _) => items.len(),
            Value::Ascii(texts) => return ended_length(texts),
            Value::Short(items) => items.len(),
            Value::Long(items) | Value::Float(items) => items.len(),
            Value::Rational(items) => items.len(),
            Value::SByte(items) => items.len(),
            Value::SShort(items) => items.len(),
            Value::SLong(items) => items.len(),
            Value::SRational(items) => items.len(),
            Value::Double(items) => items.len(),
            Value::Unknown(_, count, _) => return Some(*count),
        };
        u32::try_from(length).ok()
    }

    /// An equal value. The only error is out of memory.
    pub fn clone(&self, alloc: Global) -> Result<Value, Error>
        ensures equal { IfOk result (λ copy. copy ≡ self.now) }
        ensures memory { IfErr result (λ e. e ≡ Error.OutOfMemory) }
    {
        let copy = self.copy(alloc)?;
        Ok(copy)
    }

    fn copy(&self, alloc: Global) -> Result<Value, AllocError>
        ensures { IfOk result (λ copy. copy ≡ self.now) }
    {
        Ok(match self {
            Value::Byte(items) => Value::Byte(items.clone(alloc)?),
            Value::Ascii(texts) => Value::Ascii(copy_texts(alloc, texts)?),
            Value::Short(items) => Value::Short(items.clone(alloc)?),
            Value::Long(items) => Value::Long(items.clone(alloc)?),
            Value::Rational(items) => Value::Rational(items.clone(alloc)?),
            Value::SByte(items) => Value::SByte(items.clone(alloc)?),
            Value::Undefined(items, offset) => Value::Undefined(items.clone(alloc)?, *offset),
            Value::SShort(items) => Value::SShort(items.clone(alloc)?),
            Value::SLong(items) => Value::SLong(items.clone(alloc)?),
            Value::SRational(items) => Value::SRational(items.clone(alloc)?),
            Value::Float(items) => Value::Float(items.clone(alloc)?),
            Value::Double(items) => Value::Double(items.clone(alloc)?),
            Value::Unknown(number, count, offset) => Value::Unknown(*number, *count, *offset),
        })
    }
}

// How many bytes texts take with a zero behind each, if 32 bits hold the number.
fn ended_length(texts: &Items<Items<u8>>) -> Option<u32>
    ensures { SomeIff result (ended_length texts.now < 2 ^ 32) (ended_length texts.now) }
{
    let mut length: u32 = 0;
    for text in texts.as_slice() {
        length = u32::try_from(length as usize + text.as_slice().len() + 1).ok()?;
    }
    Some(length)
}

// An equal list of texts.
fn copy_texts(alloc: Global, texts: &Items<Items<u8>>) -> Result<Items<Items<u8>>, AllocError>
    ensures { IfOk result (λ copy. copy ≡ texts.now) }
{
    let texts = texts.as_slice();
    let mut copy = Vec::with_capacity(alloc, texts.len())?;
    for text in texts {
        copy.push(text.clone(alloc)?)?;
    }
    Ok(Items::from_vec(copy))
}

// Whether two values are of one kind and hold the same.
fn is_same(a: &Value, b: &Value) -> bool
    ensures { result ≡ value_eq a.now b.now }
{
    match (a, b) {
        (Value::Byte(a), Value::Byte(b)) => a == b,
        (Value::Ascii(a), Value::Ascii(b)) => a == b,
        (Value::Short(a), Value::Short(b)) => a == b,
        (Value::Long(a), Value::Long(b)) => a == b,
        (Value::Rational(a), Value::Rational(b)) => a == b,
        (Value::SByte(a), Value::SByte(b)) => a == b,
        (Value::Undefined(a, p), Value::Undefined(b, q)) => a == b && p == q,
        (Value::SShort(a), Value::SShort(b)) => a == b,
        (Value::SLong(a), Value::SLong(b)) => a == b,
        (Value::SRational(a), Value::SRational(b)) => a == b,
        (Value::Float(a), Value::Float(b)) => a == b,
        (Value::Double(a), Value::Double(b)) => a == b,
        (Value::Unknown(a, m, p), Value::Unknown(b, n, q)) => a == b && m == n && p == q,
        _ => false,
    }
}

impl PartialEq for Value {
    ghost use Rattle.std.specs.Cmp.{partial_equiv_from_equiv, decided};
    ghost use Rattle.exif_types.specs.ValueEq.{value_eq, value_Decides};

    ghost eq = { value_eq };

    ghost laws = { partial_equiv_from_equiv (decided value_eq value_Decides) };

    fn eq(&self, other: &Self) -> bool
        ensures computed { result ≡ value_eq self.now other.now }
        ensures equal { IsTrue result ↔ (self.now ≡ other.now) }
    {
        is_same(self, other)
    }
}

impl Eq for Value {
    ghost use Rattle.std.specs.Cmp.{decided};
    ghost use Rattle.exif_types.specs.ValueEq.{value_eq, value_Decides};

    ghost laws = { decided value_eq value_Decides };
}

impl fmt::Debug for Value {
    fn fmt<W: fmt::Write>(&self, f: &mut fmt::Formatter<W>) -> fmt::Result {
        match self {
            Value::Byte(items) => write!(f, "Byte({items:?})"),
            Value::Ascii(_) => write!(f, "Ascii([{}])", PlainText(self.contents())),
            Value::Short(items) => write!(f, "Short({items:?})"),
            Value::Long(items) => write!(f, "Long({items:?})"),
            Value::Rational(items) => write!(f, "Rational({items:?})"),
            Value::SByte(items) => write!(f, "SByte({items:?})"),
            Value::Undefined(_, offset) => {
                write!(
                    f,
                    "Undefined({}, ofs=0x{offset:x})",
                    PlainText(self.contents())
                )
            }
            Value::SShort(items) => write!(f, "SShort({items:?})"),
            Value::SLong(items) => write!(f, "SLong({items:?})"),
            Value::SRational(items) => write!(f, "SRational({items:?})"),
            Value::Float(items) => write!(f, "Float({items:?})"),
            Value::Double(items) => write!(f, "Double({items:?})"),
            Value::Unknown(number, count, offset) => {
                write!(f, "Unknown(typ={number}, cnt={count}, ofs=0x{offset:x})")
            }
        }
    }
}
