//! Bytes of a file by their index.

ghost use Rattle.std.specs.Prelude.{◌≡◌, ◌≤◌, ◌+◌, length, take, drop};
ghost use Rattle.std.specs.Str.{bytes_eq};

/// This many bytes from an index on.
pub fn bytes_at(bytes: &[u8], from: usize, len: usize) -> &[u8]
    requires { from + len ≤ length bytes.now }
    ensures { result.now ≡ take len (drop from bytes.now) }
{
    &bytes[from..][..len]
}

/// Whether a name is the one that is wanted.
pub fn is_named(name: &[u8], wanted: &[u8]) -> bool
    ensures { result ≡ bytes_eq name.now wanted.now }
{
    name == wanted
}
