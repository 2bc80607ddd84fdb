//! The types that values have in TIFF data (TIFF 6.0, section 2, "Types").

ghost use Rattle.std.specs.Prelude.{◌≡◌, ◌≤◌, Some};
ghost use Rattle.exif_text.specs.FieldTypes.{type_of, number_of, unit_length};

/// A type of values whose items have a fixed length.
#[derive(Clone, Copy, Debug, PartialEq, Eq)]
pub enum FieldType {
    Byte = 1,
    Ascii = 2,
    Short = 3,
    Long = 4,
    Rational = 5,
    SByte = 6,
    Undefined = 7,
    SShort = 8,
    SLong = 9,
    SRational = 10,
    Float = 11,
    Double = 12,
}

impl FieldType {
    /// The type that a number names, if it names one.
    pub fn of(number: u16) -> Option<FieldType>
        ensures { result ≡ type_of number }
    {
        match number {
            1 => Some(FieldType::Byte),
            2 => Some(FieldType::Ascii),
            3 => Some(FieldType::Short),
            4 => Some(FieldType::Long),
            5 => Some(FieldType::Rational),
            6 => Some(FieldType::SByte),
            7 => Some(FieldType::Undefined),
            8 => Some(FieldType::SShort),
            9 => Some(FieldType::SLong),
            10 => Some(FieldType::SRational),
            11 => Some(FieldType::Float),
            12 => Some(FieldType::Double),
            _ => None,
        }
    }

    /// The number that names the type.
    pub fn number(self) -> u16
        ensures value { result ≡ number_of self }
        ensures named { type_of result ≡ Some self }
    {
        self as u16
    }

    /// How many bytes an item takes.
    pub fn unit_length(self) -> u32
        ensures value { result ≡ unit_length self }
        ensures small { result ≤ 8 }
    {
        match self {
            FieldType::Byte | FieldType::Ascii | FieldType::SByte | FieldType::Undefined => 1,
            FieldType::Short | FieldType::SShort => 2,
            FieldType::Long | FieldType::SLong | FieldType::Float => 4,
            FieldType::Rational | FieldType::SRational | FieldType::Double => 8,
        }
    }
}
