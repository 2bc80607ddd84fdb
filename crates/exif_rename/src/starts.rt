//! From which number on the search for the new name of a request begins.

ghost use Rattle.std.specs.Prelude.{◌≡◌, ◌≢◌, ◌<◌, ◌≤◌, ◌++◌, Err, IfOk, IfErr, OnOk, string_bytes, true};
ghost use Rattle.std.specs.BTreeSet.{contains_text};
ghost use Rattle.exif_files.specs.States.{Now};
ghost use Rattle.exif_files.specs.Steps.{count_after};
ghost use Rattle.exif_rename.specs.Failures.{is_failed, IfCrowded};
ghost use Rattle.exif_rename.specs.Planned.{free_in};
ghost use Rattle.exif_rename.specs.Starts.{AreStarts, IsStart, NoneOpenBelow, is_open};
ghost use Rattle.exif_rename.specs.RenameRequests.{candidate, wanted_of};
ghost use Rattle.exif_rename.specs.declared.plan.PlanError.TheVariants.{OutOfMemory};

use crate::plan::{PlanError, TRIES};
use crate::request::{RenameRequest, candidate, joined};
use exif_files::FileSystem;
use std::alloc::Global;
use std::collections::{BTreeMap, BTreeSet};

// Paths that only a number tells apart: the candidates of a base, each with an ending.
#[derive(PartialEq, Eq, PartialOrd, Ord, Drop)]
pub(crate) struct Series {
    base: String,
    ending: String,
}

// The number from which on the search for a request begins: by a lower one its first file has no
// path that is open to any file. `starts` has the start that was found last for each series.
pub(crate) fn find_start<F: FileSystem>(
    alloc: Global,
    files: &mut F,
    given: &BTreeSet<String>,
    starts: &mut BTreeMap<Series, u32>,
    request: &RenameRequest,
) -> Result<u32, PlanError>
    ensures most { IfOk result (λ start. start ≤ 100000) }
    ensures start { IfOk result (λ start. Now (F.states files.old) (λ s.
        AreStarts (free_in s) (contains_text given.now) starts.old
        → IsStart (free_in s) (contains_text given.now) (wanted_of request.now) start)) }
    ensures kept { OnOk result (Now (F.states files.old) (λ s.
        AreStarts (free_in s) (contains_text given.now) starts.old
        → AreStarts (free_in s) (contains_text given.now) starts.new)) }
    ensures never { IfErr result (λ e. IfCrowded e (λ index. ⊥)) }
    ensures same { F.states files.new ≡ F.states files.old }
    ensures count { F.failures files.new ≡ count_after (is_failed result) (F.failures files.old) }
{
    let Some(file) = request.files.first() else {
        return Ok(0);
    };
    let series = Series {
        base: request.base.clone()?,
        ending: file.ending.clone()?,
    };
    let known = starts.get(&series).copied().unwrap_or(0);
    let start = first_open(alloc, files, given, &series, known)?;
    starts.insert(series, start)?;
    Ok(start)
}

// The first number, from `from` on, whose path in a series is open; or `TRIES`.
fn first_open<F: FileSystem>(
    alloc: Global,
    files: &mut F,
    given: &BTreeSet<String>,
    series: &Series,
    from: u32,
) -> Result<u32, PlanError>
    ensures most { IfOk result (λ start. start ≤ 100000) }
    ensures open { IfOk result (λ start. start < 100000 → Now (F.states files.old) (λ s.
        is_open (free_in s) (contains_text given.now)
        (candidate (string_bytes series.now.base) start ++ string_bytes series.now.ending)
        ≡ true)) }
    ensures below { IfOk result (λ start. Now (F.states files.old) (λ s.
        NoneOpenBelow (free_in s) (contains_text given.now) (string_bytes series.now.base)
        (string_bytes series.now.ending) from
        → NoneOpenBelow (free_in s) (contains_text given.now) (string_bytes series.now.base)
        (string_bytes series.now.ending) start)) }
    ensures never { IfErr result (λ e. IfCrowded e (λ index. ⊥)) }
    ensures same { F.states files.new ≡ F.states files.old }
    ensures count { F.failures files.new ≡ count_after (is_failed result) (F.failures files.old) }
{
    for number in from..TRIES {
        let name = candidate(alloc, series.base.as_str(), number)?;
        let path = joined(alloc, name.as_str(), series.ending.as_str())?;
        if is_open(files, given, path.as_str())? {
            return Ok(number);
        }
    }
    Ok(TRIES)
}

// Whether any file can have a path: no file was given it, and nothing has it.
fn is_open<F: FileSystem>(
    files: &mut F,
    given: &BTreeSet<String>,
    path: &str,
) -> Result<bool, PlanError>
    ensures answer { IfOk result (λ answer. Now (F.states files.old)
        (λ s. answer ≡ is_open (free_in s) (contains_text given.now) path.now)) }
    ensures never { IfErr result (λ e. IfCrowded e (λ index. ⊥)) }
    ensures no_memory { result ≢ Err OutOfMemory }
    ensures same { F.states files.new ≡ F.states files.old }
    ensures count { F.failures files.new ≡ count_after (is_failed result) (F.failures files.old) }
{
    if given.contains(path) {
        return Ok(false);
    }
    Ok(files.is_free(path)?)
}
