//! The fixed parts of a page: its style, its filters and its script. None is loaded from elsewhere.

ghost use Rattle.std.specs.Prelude.{◌≡◌, ◌++◌, OnOk};
ghost use Rattle.exif_page.specs.Markup.{beginning, ending, filters, policy, preamble, script, style};

use std::alloc::AllocError;

// What a page begins with.
const BEGINNING: &[u8] = br#"<!DOCTYPE html>
<html lang="en">
<head>
<meta charset="utf-8">
<meta name="viewport" content="width=device-width, initial-scale=1">
"#;

// What a browser may load for the page: nothing but what is in it (Content Security Policy
// Level 3, section 3.3).
const POLICY: &[u8] = br#"<meta http-equiv="Content-Security-Policy" content="default-src 'none';
 img-src data:; style-src 'unsafe-inline'; script-src 'unsafe-inline';
 base-uri 'none'; form-action 'none'">
"#;

/// The style, for light and dark screens.
pub(crate) const STYLE: &[u8] = br#":root {
  color-scheme: light dark;
  --page: #f4f4f2; --card: #ffffff; --text: #1c1c1a; --soft: #595955;
  --line: #d6d6d0; --link: #0a58a8; --empty: #e9e9e5;
}
@media (prefers-color-scheme: dark) {
  :root {
    --page: #141413; --card: #20201e; --text: #ecece8; --soft: #a8a8a2;
    --line: #3a3a37; --link: #7fb8f5; --empty: #2a2a27;
  }
}
* { box-sizing: border-box; }
html { scroll-padding-top: 8rem; }
[hidden] { display: none !important; }
body { margin: 0; background: var(--page); color: var(--text);
  font: 15px/1.45 system-ui, sans-serif; }
header { position: sticky; top: 0; z-index: 1; padding: .75rem 1.25rem;
  background: var(--page); border-bottom: 1px solid var(--line); }
h1 { margin: 0 0 .5rem; font-size: 1.2rem; overflow-wrap: anywhere; }
form { display: flex; flex-wrap: wrap; gap: .5rem 1.25rem; align-items: center; }
label { display: inline-flex; gap: .4rem; align-items: center; color: var(--soft); }
input, button { font: inherit; color: inherit; }
input[type=search], input[type=date], button { padding: .25rem .5rem; color: var(--text);
  background: var(--card); border: 1px solid var(--line); border-radius: 6px; }
input[type=search] { width: 16rem; max-width: 60vw; }
output { margin-left: auto; color: var(--soft); }
:focus-visible { outline: 2px solid var(--link); outline-offset: 2px; }
main { padding: 0 1.25rem 2rem; }
h2 { margin: 1.5rem 0 .75rem; font-size: 1rem; }
h2 span { margin-left: .5rem; font-weight: normal; color: var(--soft); }
ul { list-style: none; margin: 0; padding: 0; display: grid; gap: 1rem;
  grid-template-columns: repeat(auto-fill, minmax(13rem, 1fr)); }
section { content-visibility: auto; contain-intrinsic-size: auto 22rem; }
li { display: block; padding-bottom: .5rem; overflow: hidden; background: var(--card);
  border: 1px solid var(--line); border-radius: 8px;
  content-visibility: auto; contain-intrinsic-size: auto 17rem; }
li .thumb, li .none { display: block; height: 10rem; overflow: hidden; background: var(--empty); }
li img { display: block; width: 100%; height: 10rem; object-fit: contain; }
li .open { display: block; color: inherit; text-decoration: none; }
li .open:hover h3 { text-decoration: underline; }
li[data-orientation="2"] img { transform: scaleX(-1); }
li[data-orientation="3"] img { transform: rotate(180deg); }
li[data-orientation="4"] img { transform: scaleY(-1); }
li[data-orientation="5"] img, li[data-orientation="6"] img,
li[data-orientation="7"] img, li[data-orientation="8"] img { width: 10rem; margin: 0 auto; }
li[data-orientation="5"] img { transform: rotate(270deg) scaleX(-1); }
li[data-orientation="6"] img { transform: rotate(90deg); }
li[data-orientation="7"] img { transform: rotate(90deg) scaleX(-1); }
li[data-orientation="8"] img { transform: rotate(270deg); }
li .none { margin: 0; padding-top: 4.25rem; text-align: center; }
h3, p { margin: .15rem .75rem; font-size: .85rem; overflow-wrap: anywhere; }
h3 { margin-top: .6rem; font-size: .95rem; }
p { color: var(--soft); }
a { color: var(--link); }
@media (max-width: 40rem), (max-height: 30rem) { header { position: static; } }
@media (scripting: none) { li .thumb { display: none; } }
@media print { header { position: static; } form { display: none; } li { break-inside: avoid; } }
"#;

// The filters, which the script shows, and the beginning of the sections.
const FILTERS: &[u8] = br#"<form hidden>
<label>Camera or path <input type="search" name="text" autocomplete="off"></label>
<label>From <input type="date" name="from"></label>
<label>To <input type="date" name="to"></label>
<label><input type="checkbox" name="located"> With location</label>
<label><input type="checkbox" name="undated"> Without date</label>
<button type="reset">Reset</button>
<output></output>
</form>
<noscript>Thumbnails need the script of this page.</noscript>
</header>
<main>
"#;

/// The script of the filters and the thumbnails. It reads the `data-` attributes of the cards, and
/// writes numbers; a card that comes into view gets its image, of the data behind all cards, with
/// the name of the file as its text.
pub(crate) const SCRIPT: &[u8] = br#""use strict";
(() => {
  const form = document.querySelector("form");
  const { text, from, to, located, undated } = form.elements;
  const total = form.querySelector("output");
  const cards = Array.from(document.querySelectorAll("main li"), (element) => ({
    element,
    text: `${element.dataset.path}\n${element.dataset.camera ?? ""}`.toLowerCase(),
    day: element.dataset.day,
    located: "latitude" in element.dataset && "longitude" in element.dataset,
  }));
  const sections = Array.from(document.querySelectorAll("main section"), (element) => ({
    element,
    count: element.querySelector("h2 span"),
    cards: element.querySelectorAll("li"),
  }));
  const isInDays = (day) => {
    if (undated.checked) return day === undefined;
    if (!from.value && !to.value) return true;
    return day !== undefined && day >= from.value && (!to.value || day <= to.value);
  };
  const counted = (shown, all) => (shown === all ? `${all}` : `${shown} of ${all}`);
  const update = () => {
    const wanted = text.value.trim().toLowerCase();
    from.disabled = to.disabled = undated.checked;
    let shown = 0;
    for (const card of cards) {
      const isShown = card.text.includes(wanted) && isInDays(card.day)
        && (card.located || !located.checked);
      card.element.hidden = !isShown;
      shown += isShown;
    }
    for (const section of sections) {
      const inside = Array.from(section.cards).filter((card) => !card.hidden).length;
      section.element.hidden = inside === 0;
      section.count.textContent = counted(inside, section.cards.length);
    }
    total.textContent = `${counted(shown, cards.length)} pictures`;
  };
  form.addEventListener("input", update);
  form.addEventListener("reset", () => setTimeout(update));
  form.addEventListener("submit", (event) => event.preventDefault());
  form.hidden = false;
  update();
  const showThumbnails = () => {
    const jpegs = document.querySelectorAll("script[type='text/plain']");
    const waiting = new Map();
    document.querySelectorAll("main .thumb").forEach((place, i) => {
      waiting.set(place.closest("li"), { place, jpeg: jpegs[i] });
    });
    const show = (card) => {
      const { place, jpeg } = waiting.get(card);
      waiting.delete(card);
      const image = document.createElement("img");
      image.alt = card.querySelector("h3").textContent;
      image.src = `data:image/jpeg;base64,${jpeg.textContent}`;
      place.append(image);
    };
    const observer = new IntersectionObserver((changes) => {
      for (const { isIntersecting, target } of changes) {
        if (!isIntersecting) continue;
        observer.unobserve(target);
        if (waiting.has(target)) show(target);
      }
    }, { rootMargin: "100%" });
    for (const card of waiting.keys()) observer.observe(card);
    addEventListener("beforeprint", () => {
      for (const card of waiting.keys()) if (!card.hidden) show(card);
    });
  };
  document.addEventListener("DOMContentLoaded", showThumbnails);
})();
"#;

// Appends what is before the policy.
#[tactic(auto, unfolding(crate::specs::Markup::preamble))]
fn push_preamble(out: &mut Vec<u8>) -> Result<(), AllocError>
    ensures { OnOk result (out.new.items ≡ out.old.items ++ preamble) }
{
    out.extend_from_slice(BEGINNING)
}

// Appends the policy, which lets nothing be loaded.
#[tactic(auto, unfolding(crate::specs::Markup::policy))]
fn push_policy(out: &mut Vec<u8>) -> Result<(), AllocError>
    ensures { OnOk result (out.new.items ≡ out.old.items ++ policy) }
{
    out.extend_from_slice(POLICY)
}

// Appends what is before the title.
#[tactic(auto, unfolding(crate::specs::Markup::beginning))]
pub(crate) fn push_beginning(out: &mut Vec<u8>) -> Result<(), AllocError>
    ensures { OnOk result (out.new.items ≡ out.old.items ++ beginning) }
{
    push_preamble(out)?;
    push_policy(out)
}

// Appends three texts.
fn push_parts(out: &mut Vec<u8>, before: &[u8], text: &[u8], after: &[u8]) -> Result<(), AllocError>
    ensures { OnOk result (out.new.items
        ≡ out.old.items ++ (before.now ++ (text.now ++ after.now))) }
{
    out.extend_from_slice(before)?;
    out.extend_from_slice(text)?;
    out.extend_from_slice(after)
}

// Appends the style, and the beginning of the body.
#[tactic(auto, unfolding(crate::specs::Markup::style))]
pub(crate) fn push_style(out: &mut Vec<u8>) -> Result<(), AllocError>
    ensures { OnOk result (out.new.items ≡ out.old.items ++ style) }
{
    push_parts(
        out,
        b"<style>\n",
        STYLE,
        b"</style>\n</head>\n<body>\n<header>\n",
    )
}

// Appends the filters, and the beginning of the sections.
#[tactic(auto, unfolding(crate::specs::Markup::filters))]
pub(crate) fn push_filters(out: &mut Vec<u8>) -> Result<(), AllocError>
    ensures { OnOk result (out.new.items ≡ out.old.items ++ filters) }
{
    out.extend_from_slice(FILTERS)
}

// Appends the script, and the beginning of what holds the data of the thumbnails.
#[tactic(auto, unfolding(crate::specs::Markup::script))]
pub(crate) fn push_script(out: &mut Vec<u8>) -> Result<(), AllocError>
    ensures { OnOk result (out.new.items ≡ out.old.items ++ script) }
{
    push_parts(
        out,
        b"</main>\n<script>\n",
        SCRIPT,
        b"</script>\n<div hidden>\n",
    )
}

// Appends the end of the page.
#[tactic(auto, unfolding(crate::specs::Markup::ending))]
pub(crate) fn push_ending(out: &mut Vec<u8>) -> Result<(), AllocError>
    ensures { OnOk result (out.new.items ≡ out.old.items ++ ending) }
{
    out.extend_from_slice(b"</div>\n</body>\n</html>\n")
}
