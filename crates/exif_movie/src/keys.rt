//! The subjects of metadata items: by the types of their boxes, or by keys (QuickTime File Format,
//! "Metadata Item Keys Atom", "Metadata Item List Atom").

ghost use Rattle.std.specs.Prelude.{◌≡◌, ◌≤◌, ◌<◌, length, IfSome};
ghost use Rattle.exif_movie.specs.Keys.{has_bytes, is_of_location, item_subject, key_size, key_subject, keyed_subject, numbered_subject, plain_subject, subject_at};

use crate::bytes::{begins, number};
use crate::kind::Subject;
use crate::leaf::user_subject;

// The largest number of a key that is read.
const MAX_KEY_NUMBER: usize = 1_024;
// The longest key that is read, in bytes.
const MAX_KEY_LEN: usize = 256;

// Whether bytes contain a word.
fn has_bytes(word: &[u8], bytes: &[u8]) -> bool
    ensures { result ≡ has_bytes word.now bytes.now }
{
    let mut rest = bytes;
    while !rest.is_empty() {
        if begins(word, rest) {
            return true;
        }
        rest = &rest[1..];
    }
    false
}

// Whether a key is one of a location, by words in it.
fn is_of_location(key: &[u8]) -> bool
    ensures { result ≡ is_of_location key.now }
{
    has_bytes(b"ocation", key)
        || has_bytes(b"OCATION", key)
        || has_bytes(b"6709", key)
        || has_bytes(b"xyz", key)
        || has_bytes(b"gps", key)
        || has_bytes(b"GPS", key)
        || has_bytes(b"atitude", key)
        || has_bytes(b"ongitude", key)
        || has_bytes(b"oordinate", key)
}

// The subject of a key that is of no location.
fn plain_subject(key: &[u8]) -> Subject
    ensures { result ≡ plain_subject key.now }
{
    if has_bytes(b"date", key) {
        Subject::Date
    } else if has_bytes(b"make", key) || has_bytes(b"manufacturer", key) {
        Subject::Make
    } else if has_bytes(b"model", key) {
        Subject::Model
    } else if has_bytes(b"software", key) || has_bytes(b"encoder", key) {
        Subject::Software
    } else {
        Subject::Other
    }
}

// The subject of a key. One that is too long may be of a location.
fn key_subject(key: &[u8]) -> Subject
    ensures { result ≡ key_subject key.now }
{
    if key.len() > MAX_KEY_LEN || is_of_location(key) {
        Subject::Location
    } else {
        plain_subject(key)
    }
}

// How many bytes the first key takes, if it is whole.
fn key_size(bytes: &[u8]) -> Option<usize>
    ensures value { result ≡ key_size bytes.now }
    ensures least { IfSome result (λ size. 8 ≤ size) }
    ensures within { IfSome result (λ size. size ≤ length bytes.now) }
{
    if bytes.len() < 8 {
        return None;
    }
    let size = number(bytes);
    if size < 8 || bytes.len() < size {
        return None;
    }
    Some(size)
}

// The subject of the key after `n` others. One that is not there may be of a location.
#[tactic(auto, using(crate::proofs::KeySteps::key_on, crate::proofs::KeySteps::key_found, crate::proofs::KeySteps::key_missing))]
fn subject_at(n: usize, keys: &[u8]) -> Subject
    ensures { result ≡ subject_at n keys.now }
{
    let mut left = n;
    let mut rest = keys;
    while let Some(size) = key_size(rest) {
        if left == 0 {
            return key_subject(&rest[8..size]);
        }
        left -= 1;
        rest = &rest[size..];
    }
    Subject::Location
}

// The subject of an item whose key has this number, counted from 1.
fn numbered_subject(n: usize, keys: &[u8]) -> Subject
    ensures { result ≡ numbered_subject n keys.now }
{
    if n == 0 || n > MAX_KEY_NUMBER {
        return Subject::Location;
    }
    subject_at(n - 1, keys)
}

// The subject of an item whose type is the number of its key.
fn keyed_subject(name: &[u8], keys: &[u8]) -> Subject
    requires { 4 ≤ length name.now }
    ensures { result ≡ keyed_subject name.now keys.now }
{
    numbered_subject(number(name), keys)
}

/// The subject of an item, by the type of its box, or by the keys if the type is a number. If the
/// key is not there, it may be of a location.
pub fn item_subject(name: &[u8], keys: &[u8]) -> Subject
    ensures { result ≡ item_subject name.now keys.now }
{
    if name.len() < 4 {
        return Subject::Location;
    }
    if name[0] == 0 {
        keyed_subject(name, keys)
    } else {
        user_subject(name)
    }
}
