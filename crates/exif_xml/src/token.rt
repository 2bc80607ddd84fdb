//! The tokens of an XML document.

ghost use Rattle.std.specs.Prelude.{◌≡◌, ◌<◌, ◌≤◌, ◌+◌, ◌^◌, length, IfOk, IfSome};
ghost use Rattle.exif_xml.specs.Tokens.{cdata_at, declaration_at, end_at, instruction_at, markup_at, name_len, delimited, start_at, token_at, declaration_fault};

use crate::fault::Fault;
use crate::scan::{byte_at, closed_len, has_at, name_len, space_len, tag_len, text_len};

/// What a token is.
#[derive(Clone, Copy, Debug, PartialEq, Eq)]
pub enum Kind {
    /// Character data up to the next `<` (XML 1.0, 2.4).
    Text,
    /// A CDATA section, `<![CDATA[..]]>` (XML 1.0, 2.7).
    Cdata,
    /// A comment or a processing instruction, and so the XML declaration (XML 1.0, 2.5, 2.6, 2.8).
    Ignored,
    /// A start tag: how many bytes its name has, and whether it ends in `/>` (XML 1.0, 3.1).
    Start(usize, bool),
    /// An end tag: how many bytes its name has (XML 1.0, 3.1).
    End(usize),
}

/// A token of a document.
#[derive(Clone, Copy, Debug, PartialEq, Eq)]
pub struct Token {
    /// What it is.
    pub kind: Kind,
    /// How many bytes it has, with its delimiters.
    pub len: usize,
}

// A token of `opening` bytes and as many more as were found.
fn delimited(kind: Kind, opening: usize, found: Option<usize>, limit: usize) -> Result<Token, Fault>
    requires opening { name_len kind < opening }
    requires some { 0 < opening }
    requires short { opening < 16 }
    requires limit { limit < 2 ^ 63 }
    requires found { IfSome found (λ n. n ≤ limit) }
    ensures value { result ≡ delimited kind opening found }
    ensures some { IfOk result (λ t. 0 < t.len) }
    ensures named { IfOk result (λ t. name_len t.kind < t.len) }
    ensures within { IfOk result (λ t. t.len ≤ opening + limit) }
{
    match found {
        Some(n) => Ok(Token {
            kind,
            len: opening + n,
        }),
        None => Err(Fault::Truncated),
    }
}

// A start tag; `rest` begins behind its `<`.
#[tactic(auto, unfolding(crate::specs::Tokens::start_at))]
fn start(rest: &[u8]) -> Result<Token, Fault>
    ensures value { result ≡ start_at rest.now }
    ensures some { IfOk result (λ t. 0 < t.len) }
    ensures named { IfOk result (λ t. name_len t.kind < t.len) }
    ensures within { IfOk result (λ t. t.len ≤ length rest.now + 1) }
{
    let n = name_len(rest);
    if n == 0 {
        return Err(Fault::Malformed);
    }
    match tag_len(&rest[n..]) {
        Some(m) => {
            let empty = 1 < m && byte_at(rest, n + m - 2) == b'/';
            Ok(Token {
                kind: Kind::Start(n, empty),
                len: n + m + 1,
            })
        }
        None => Err(Fault::Truncated),
    }
}

// An end tag; `rest` begins behind its `</`.
#[tactic(auto, unfolding(crate::specs::Tokens::end_at))]
fn end(rest: &[u8]) -> Result<Token, Fault>
    ensures value { result ≡ end_at rest.now }
    ensures some { IfOk result (λ t. 0 < t.len) }
    ensures named { IfOk result (λ t. name_len t.kind < t.len) }
    ensures within { IfOk result (λ t. t.len ≤ length rest.now + 2) }
{
    let n = name_len(rest);
    if n == 0 {
        return Err(Fault::Malformed);
    }
    let k = n + space_len(&rest[n..]);
    if has_at(rest, k, b'>') {
        return Ok(Token {
            kind: Kind::End(n),
            len: k + 3,
        });
    }
    Err(Fault::Malformed)
}

// Why a declaration is refused; `rest` begins behind its `<`.
fn declaration_fault(rest: &[u8]) -> Fault
    ensures { result ≡ declaration_fault rest.now }
{
    if rest.starts_with(b"!DOCTYPE") {
        return Fault::Doctype;
    }
    Fault::Malformed
}

// A CDATA section; `rest` begins behind its `<`.
fn cdata(rest: &[u8]) -> Result<Token, Fault>
    ensures value { result ≡ cdata_at rest.now }
    ensures some { IfOk result (λ t. 0 < t.len) }
    ensures named { IfOk result (λ t. name_len t.kind < t.len) }
    ensures within { IfOk result (λ t. t.len ≤ length rest.now + 1) }
{
    if rest.starts_with(b"![CDATA[") {
        let inner = &rest[8..];
        return delimited(Kind::Cdata, 9, closed_len(inner, b']', 2), inner.len());
    }
    Err(declaration_fault(rest))
}

// What begins with `<!`; `rest` begins behind its `<`.
#[tactic(auto, unfolding(crate::specs::Tokens::declaration_at))]
fn declaration(rest: &[u8]) -> Result<Token, Fault>
    ensures value { result ≡ declaration_at rest.now }
    ensures some { IfOk result (λ t. 0 < t.len) }
    ensures named { IfOk result (λ t. name_len t.kind < t.len) }
    ensures within { IfOk result (λ t. t.len ≤ length rest.now + 1) }
{
    if rest.starts_with(b"!--") {
        let inner = &rest[3..];
        return delimited(Kind::Ignored, 4, closed_len(inner, b'-', 2), inner.len());
    }
    cdata(rest)
}

// A processing instruction; `rest` begins behind its `<?`.
fn instruction(rest: &[u8]) -> Result<Token, Fault>
    ensures value { result ≡ instruction_at rest.now }
    ensures some { IfOk result (λ t. 0 < t.len) }
    ensures named { IfOk result (λ t. name_len t.kind < t.len) }
    ensures within { IfOk result (λ t. t.len ≤ length rest.now + 2) }
{
    delimited(Kind::Ignored, 2, closed_len(rest, b'?', 1), rest.len())
}

// Markup; `rest` begins behind its `<`.
#[tactic(auto, unfolding(crate::specs::Tokens::markup_at))]
fn markup(rest: &[u8]) -> Result<Token, Fault>
    ensures value { result ≡ markup_at rest.now }
    ensures some { IfOk result (λ t. 0 < t.len) }
    ensures named { IfOk result (λ t. name_len t.kind < t.len) }
    ensures within { IfOk result (λ t. t.len ≤ length rest.now + 1) }
{
    if has_at(rest, 0, b'/') {
        return end(&rest[1..]);
    }
    if has_at(rest, 0, b'?') {
        return instruction(&rest[1..]);
    }
    if has_at(rest, 0, b'!') {
        return declaration(rest);
    }
    start(rest)
}

/// The token at the beginning of an input that is not empty: character data up to the next `<`, or
/// markup. It has at least one byte, so a loop over tokens ends.
///
/// A start tag ends at the first `>` outside quotes; its attributes are not read here. It needs no
/// memory.
///
/// # Errors
///
/// [`Fault::Doctype`] for a document type declaration, [`Fault::Truncated`] where the end of the
/// token is missing, and [`Fault::Malformed`] for `<` without a name and for other declarations.
#[tactic(auto, unfolding(crate::specs::Tokens::token_at))]
pub fn token_at(input: &[u8]) -> Result<Token, Fault>
    requires { 0 < length input.now }
    ensures value { result ≡ token_at input.now }
    ensures some { IfOk result (λ t. 0 < t.len) }
    ensures named { IfOk result (λ t. name_len t.kind < t.len) }
    ensures within { IfOk result (λ t. t.len ≤ length input.now) }
{
    if input[0] == b'<' {
        return markup(&input[1..]);
    }
    Ok(Token {
        kind: Kind::Text,
        len: text_len(input),
    })
}
