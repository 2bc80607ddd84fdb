//! Laws of the page. They hold for all texts, and speak of the definitions alone.

ghost use Rattle.std.specs.Prelude.{◌≡◌, ℕ, List, true};
ghost use Rattle.exif_page.specs.Escaping.{escaped, is_plain_text};
ghost use Rattle.exif_page.specs.Markup.{is_inert};
ghost use Rattle.exif_page.specs.Thumbnails.{base64};
ghost use Rattle.exif_page.specs.declared.markup.TheConstants.{SCRIPT, STYLE};

/// An escaped text has none of `<`, `>`, `"` and `'`. So no text of a picture begins or ends a tag,
/// or ends the value of an attribute that is in quotes.
pub fn an_escaped_text_has_no_markup()
    ensures { (text : List ℕ) → is_plain_text (escaped text) ≡ true }
{}

/// Two texts that differ are shown differently: nothing is lost by escaping.
pub fn escaping_loses_nothing()
    ensures { (one other : List ℕ) → escaped one ≡ escaped other → one ≡ other }
{}

/// The base64 of a thumbnail has none of them either, whatever its bytes are. So it is one text in
/// its data block: it neither ends that nor begins a comment or an element there.
pub fn a_thumbnail_has_no_markup()
    ensures { (bytes : List ℕ) → is_plain_text (base64 bytes) ≡ true }
{}

/// The style and the script, which every page has, end none of their elements, load nothing, and
/// make neither markup nor code of a text.
pub fn style_and_script_are_inert()
    ensures style { is_inert STYLE.now ≡ true }
    ensures script { is_inert SCRIPT.now ≡ true }
{}
