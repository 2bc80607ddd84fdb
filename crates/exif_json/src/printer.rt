//! Writing tokens, with room for one text at a time.

ghost use Rattle.std.specs.Prelude.{◌≡◌, ◌++◌, [], ◌∷◌, Some, OnOk, List, ℕ};
ghost use Rattle.json.specs.Json as J;
ghost use Rattle.std.specs.Str.{IsUtf8};
ghost use Rattle.json.specs.Lex.{tokens};
ghost use Rattle.json.specs.Print.{print};
ghost use Rattle.json.specs.Token as T;
ghost use Rattle.json.specs.Tree.{json_tokens};
ghost use Rattle.std.specs.Fmt.{decimal};
ghost use Rattle.exif_json.specs.Prints.{Prints};

use json::Writer;
use std::alloc::{AllocError, Global};
use std::fmt::{Display, Write};

/// JSON as it is written, token after token, with memory for one text at a time. Each call adds
/// exactly its tokens; the only error is out of memory, after which what was written is of no use.
#[derive(Drop)]
pub struct Printer {
    /// The tokens that were written.
    pub out: Writer,
    // the text that is being made
    pub(crate) text: String,
}

impl Printer {
    /// Nothing yet.
    pub fn new(alloc: Global) -> Printer
        ensures before { result.out.before ≡ [] }
        ensures tokens { result.out.tokens ≡ [] }
    {
        Printer {
            out: Writer::new(Vec::new(alloc)),
            text: String::new(alloc),
        }
    }

    /// The text of what was written.
    pub fn finish(self) -> Vec<u8>
        ensures text { result.items ≡ self.out.before ++ print self.out.tokens }
        ensures tokens { tokens (print self.out.tokens) ≡ self.out.tokens }
        ensures utf8 { IsUtf8 (print self.out.tokens) }
    {
        let Printer { out, .. } = self;
        out.into_inner()
    }

    /// Writes a string of what is shown.
    pub fn shown<D: Display + Drop>(&mut self, item: D) -> Result<(), AllocError>
        ensures prints { (text : List ℕ) → D.output item ≡ Some text
            → Prints result self.old.out self.new.out (json_tokens (J.string text)) }
        ensures before { OnOk result (self.new.out.before ≡ self.old.out.before) }
    {
        self.text.clear();
        match write!(self.text, "{item}") {
            Ok(()) => self.out.string(&self.text),
            Err(_) => Err(AllocError),
        }
    }

    /// Writes a name and a number.
    pub fn number_member(&mut self, name: &str, number: u64) -> Result<(), AllocError>
        ensures { Prints result self.old.out self.new.out
            (T.key name.now ∷ json_tokens (J.number (decimal number))) }
    {
        self.out.key(name)?;
        self.out.u64(number)
    }

    /// Writes a name and a text.
    pub fn text_member(&mut self, name: &str, text: &str) -> Result<(), AllocError>
        ensures { Prints result self.old.out self.new.out
            (T.key name.now ∷ json_tokens (J.string text.now)) }
    {
        self.out.key(name)?;
        self.out.string(text)
    }

    /// Writes a name and a string of what is shown.
    pub fn shown_member<D: Display + Drop>(&mut self, name: &str, item: D) -> Result<(), AllocError>
        ensures prints { (text : List ℕ) → D.output item ≡ Some text
            → Prints result self.old.out self.new.out
            (T.key name.now ∷ json_tokens (J.string text)) }
        ensures before { OnOk result (self.new.out.before ≡ self.old.out.before) }
    {
        self.out.key(name)?;
        self.shown(item)
    }
}
