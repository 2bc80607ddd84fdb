//! Links from a page to the files of its pictures.

ghost use Rattle.std.specs.Prelude.{◌≡◌, ◌≤◌, ◌<◌, ◌++◌, IfOk, OnOk, length, string_bytes};
ghost use Rattle.exif_page.specs.Links.{common, hex_digit, is_plain, link_of, ups, url_byte, url_of};

use std::alloc::{AllocError, Global};

// Whether a byte is itself in the path of a URL: a letter, a digit, one of `-._~`, or a slash (RFC
// 3986, sections 2.3 and 3.3).
fn is_plain(byte: u8) -> bool
    ensures { result ≡ is_plain byte }
{
    byte.is_ascii_alphanumeric() || matches!(byte, b'-' | b'.' | b'_' | b'~' | b'/')
}

// The digit of a number below 16.
fn hex_digit(number: u8) -> u8
    requires { number < 16 }
    ensures { result ≡ hex_digit number }
{
    if number < 10 {
        b'0' + number
    } else {
        b'A' + (number - 10)
    }
}

// Appends a byte of a path as it is in a URL: itself, or its two digits behind a percent sign (RFC
// 3986, section 2.1).
fn push_url_byte(out: &mut String, byte: u8) -> Result<(), AllocError>
    ensures { OnOk result (string_bytes out.new ≡ string_bytes out.old ++ url_byte byte) }
{
    if is_plain(byte) {
        return out.push(char::from(byte));
    }
    out.push('%')?;
    out.push(char::from(hex_digit(byte / 16)))?;
    out.push(char::from(hex_digit(byte % 16)))
}

// Appends a path as it is in a URL.
fn push_url(out: &mut String, path: &[u8]) -> Result<(), AllocError>
    ensures { OnOk result (string_bytes out.new ≡ string_bytes out.old ++ url_of path.now) }
{
    for byte in path {
        push_url_byte(out, *byte)?;
    }
    Ok(())
}

// How many first bytes two paths share, up to the last `/` of these.
fn common_len(folder: &[u8], path: &[u8]) -> usize
    ensures in_folder { result ≤ length folder.now }
    ensures in_path { result ≤ length path.now }
    ensures value { result ≡ common 0 0 folder.now path.now }
{
    let mut last = 0;
    for at in 0..folder.len() {
        if at >= path.len() {
            return last;
        }
        if folder[at] != path[at] {
            return last;
        }
        if folder[at] == b'/' {
            last = at + 1;
        }
    }
    last
}

// Appends `../` for each folder in the rest of a path.
fn push_ups(out: &mut String, rest: &[u8]) -> Result<(), AllocError>
    ensures { OnOk result (string_bytes out.new ≡ string_bytes out.old ++ ups rest.now) }
{
    for byte in rest {
        if *byte == b'/' {
            out.push_str("../")?;
        }
    }
    Ok(())
}

/// The URL of a file as a page in a folder names it, relative to the folder. Both paths begin with
/// `/`, and that of the folder ends with one; no part of them is `.` or `..`. The only error is out
/// of memory.
pub fn link_to(alloc: Global, folder: &str, path: &str) -> Result<String, AllocError>
    ensures { IfOk result (λ link. string_bytes link ≡ link_of folder.now path.now) }
{
    let folder = folder.as_bytes();
    let path = path.as_bytes();
    let shared = common_len(folder, path);
    let mut link = String::new(alloc);
    push_ups(&mut link, &folder[shared..])?;
    push_url(&mut link, &path[shared..])?;
    Ok(link)
}
