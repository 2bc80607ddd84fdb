//! Bytes compared with the words of a table.

ghost use Rattle.std.specs.Prelude.{◌≡◌, map};
ghost use Rattle.exif_locations.specs.Words.{begins_with, begins_with_one, ends_with, ends_with_one, is_one_of};

/// Whether bytes begin with a word.
#[tactic(auto, unfolding(crate::specs::Words::begins_with))]
pub fn begins_with(word: &[u8], bytes: &[u8]) -> bool
    ensures { result ≡ begins_with word.now bytes.now }
{
    bytes.starts_with(word)
}

// Whether bytes end with a word.
fn ends_with(word: &[u8], bytes: &[u8]) -> bool
    ensures { result ≡ ends_with word.now bytes.now }
{
    &bytes[bytes.len().saturating_sub(word.len())..] == word
}

/// Whether bytes are one of some words.
pub fn is_one_of(words: &[&str], bytes: &[u8]) -> bool
    ensures { result ≡ is_one_of (map (λ word. word.now) words.now) bytes.now }
{
    for word in words {
        if bytes == word.as_bytes() {
            return true;
        }
    }
    false
}

/// Whether bytes begin with one of some words.
pub fn begins_with_one(words: &[&str], bytes: &[u8]) -> bool
    ensures { result ≡ begins_with_one (map (λ word. word.now) words.now) bytes.now }
{
    for word in words {
        if begins_with(word.as_bytes(), bytes) {
            return true;
        }
    }
    false
}

/// Whether bytes end with one of some words.
pub fn ends_with_one(words: &[&str], bytes: &[u8]) -> bool
    ensures { result ≡ ends_with_one (map (λ word. word.now) words.now) bytes.now }
{
    for word in words {
        if ends_with(word.as_bytes(), bytes) {
            return true;
        }
    }
    false
}
