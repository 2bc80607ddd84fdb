//! The name of a camera.

ghost use Rattle.std.specs.Prelude.{◌≡◌, ◌++◌, IfOk, codes, option_map, string_bytes};
ghost use Rattle.exif_page.specs.Cameras.{both, camera_of, ends_word, repeats};

use std::alloc::{AllocError, Global};

// Whether the first word of a make ends here.
fn ends_word(make: &[u8]) -> bool
    ensures { result ≡ ends_word make.now }
{
    match make {
        [] => true,
        [byte, ..] => *byte == b' ',
    }
}

// Whether a model begins with the first word of a make, whatever the case of its letters.
fn repeats(model: &[u8], make: &[u8]) -> bool
    ensures { result ≡ repeats model.now make.now }
{
    match (model, make) {
        ([], make) => ends_word(make),
        ([byte, ..], []) => !byte.is_ascii_alphanumeric(),
        ([byte, model @ ..], [letter, make @ ..]) => {
            if *letter == b' ' {
                !byte.is_ascii_alphanumeric()
            } else {
                byte.eq_ignore_ascii_case(letter) && repeats(model, make)
            }
        }
    }
}

// The model behind the make.
fn joined(alloc: Global, make: &str, model: &str) -> Result<String, AllocError>
    ensures { IfOk result (λ t. string_bytes t ≡ make.now ++ codes " " ++ model.now) }
{
    format!(in alloc; "{make} {model}")
}

// The same, where the make is not said twice.
fn both(alloc: Global, make: &str, model: &str) -> Result<String, AllocError>
    ensures { IfOk result (λ t. string_bytes t ≡ both make.now model.now) }
{
    if repeats(model.as_bytes(), make.as_bytes()) {
        String::from_str(alloc, model)
    } else {
        joined(alloc, make, model)
    }
}

/// The name of a camera, by its make and model, as `Example Pinhole`. A make whose first word
/// begins the model is left out: `EXAMPLE WORKS` and `Example Two` are `Example Two`. The only
/// error is out of memory.
pub fn camera_of(
    alloc: Global,
    make: Option<&str>,
    model: Option<&str>,
) -> Result<Option<String>, AllocError>
    ensures { IfOk result (λ t. option_map string_bytes t
        ≡ camera_of (option_map (λ t. t.now) make.entry) (option_map (λ t. t.now) model.entry)) }
{
    match (make, model) {
        (Some(make), Some(model)) => Ok(Some(both(alloc, make, model)?)),
        (Some(name), None) | (None, Some(name)) => Ok(Some(String::from_str(alloc, name)?)),
        (None, None) => Ok(None),
    }
}
