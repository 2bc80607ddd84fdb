//! What is done with what a run over a catalogue gives next.

ghost use Rattle.std.specs.Prelude.{◌≡◌};
ghost use Rattle.exif_gathering.specs.Steps.{step_of};

use exif_decisions::NotRead;
use exif_inputs::Next;
use std::io;

/// What is done with what a run gives next.
#[derive(Drop)]
pub enum NextStep {
    /// It may be a picture, and whether its file is not looked at before.
    Begin(String, bool),
    /// It goes with the pictures beside it, and is not read.
    Skip(String, NotRead),
    /// It is refused: standard input.
    RefuseInput,
    /// It is refused: a name that can't be followed.
    Fail(String, io::Error),
}

/// What is done with what a run gives next, by whether only pictures that meet conditions are asked
/// for.
pub fn step_of(next: Next, has_conditions: bool) -> NextStep
    ensures { result ≡ step_of next has_conditions }
{
    match next {
        Next::Named(path) => NextStep::Begin(path, false),
        Next::Found(path) => NextStep::Begin(path, !has_conditions),
        Next::Beside(path, why) => NextStep::Skip(path, why),
        Next::Input => NextStep::RefuseInput,
        Next::Failed(path, cause) => NextStep::Fail(path, cause),
    }
}
