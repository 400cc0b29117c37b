ghost use Rattle.std.specs.Prelude.{◌≡◌, ◌+◌, ◌≤◌, ◌<◌, ◌^◌, ◌++◌, Ok, codes, length, map, IfOk};
ghost use Rattle.std.specs.List.{flat_map};
ghost use Rattle.ndc_event.specs.Outcome.{Gives};
ghost use Rattle.ndc_model_sets.specs.Sound.{IsSound};
ghost use Rattle.ndc_model_sets.specs.View.{view_of};
ghost use Rattle.ndc_text.specs.Views.{run_state_lines};
ghost use Rattle.ndc_dump.specs.Batches.{batch_count, view_lines};
ghost use Rattle.ndc_dump_causes.specs.Causes.{sound_or};
ghost use Rattle.ndc_dump_causes.specs.Given.{AreRead};
ghost use Rattle.ndc_dump.specs.Lines.{differ_at, lines_of};
ghost use Rattle.ndc_dump.specs.Migrated.{standing_for};
ghost use Rattle.ndc_dump.specs.Read.{dump_of, dump_on, view_on};
ghost use Rattle.ndc_dump_causes.specs.declared.error.DumpError.TheVariants.{Memory};

use crate::batches::batches_on;
use crate::cut::lines_of;
use crate::dump::Dump;
use crate::frame::{begins_batch, body_of, heading_of};
use crate::migrated::standing_for;
use crate::showing::runs_of;
use ndc_dump_causes::{DumpError, LineCause, sound_or};
use ndc_event::{Batch, OutOfMemory};
use ndc_model_sets::{Batches, RunView, RunViews, View};
use ndc_text::TextForm;
use ndc_text::dump::push_runs;
use std::alloc::Global;

/// How many lines stand before the first that is not a batch's.
fn batch_count(lines: &[&[u8]]) -> usize
    ensures { result ≡ batch_count (map (λ line. line.now) lines.now) }
{
    let mut count = 0;
    for line in lines {
        if !begins_batch(line) {
            return count;
        }
        count += 1;
    }
    count
}

/// The lines after those of batches.
pub(crate) fn view_lines<'l, 'b>(lines: &'l [&'b [u8]]) -> &'l [&'b [u8]]
    ensures lines { map (λ line. line.now) result.now
        ≡ view_lines (map (λ line. line.now) lines.now) }
    ensures count { length result.now ≤ length lines.now }
{
    let (_, behind) = lines.split_at(batch_count(lines));
    behind
}

/// The number of the first line that differs, is missing or is one too many, where the lines have numbers from this
/// one on.
fn differ_at(number: u64, lines: &[&[u8]], wanted: &[&[u8]]) -> Option<u64>
    requires { number + length lines.now < 2 ^ 64 }
    ensures { result ≡ differ_at number (map (λ line. line.now) lines.now)
        (map (λ line. line.now) wanted.now) }
{
    let mut number = number;
    let mut left = wanted;
    for line in lines {
        match left {
            [other, behind @ ..] => {
                if line != other {
                    return Some(number);
                }
                left = behind;
                number += 1;
            }
            [] => return Some(number),
        }
    }
    if left.is_empty() { None } else { Some(number) }
}

/// The lines of runs with their branches and states, and the last line.
fn view_text(alloc: Global, runs: &[RunView]) -> Result<Vec<u8>, OutOfMemory>
    ensures { IfOk result (λ text.
        text.items ≡ flat_map run_state_lines runs.now ++ codes "end\n") }
{
    let mut text = Vec::new(alloc);
    push_runs(alloc, &mut text, runs)?;
    text.extend_from_slice(b"end\n")?;
    Ok(text)
}

/// The number of the first line that is not what these runs show.
fn first_other(
    alloc: Global,
    number: u64,
    lines: &[&[u8]],
    runs: &[RunView],
) -> Result<Option<u64>, OutOfMemory>
    requires { number + length lines.now < 2 ^ 64 }
    ensures { IfOk result (λ other.
        other ≡ differ_at number (map (λ line. line.now) lines.now)
        (lines_of (flat_map run_state_lines runs.now ++ codes "end\n"))) }
{
    let text = view_text(alloc, runs)?;
    let wanted = lines_of(alloc, text.as_slice())?;
    Ok(differ_at(number, lines, wanted.as_slice()))
}

/// The view of the set that batches represent, where these lines, with numbers from this one on, are what it shows
/// after its batches.
fn view_on(
    alloc: Global,
    number: u64,
    lines: &[&[u8]],
    form: TextForm,
    batches: Vec<Batch>,
) -> Result<View, DumpError>
    requires count { number + length lines.now < 2 ^ 64 }
    requires read { AreRead batches.items }
    requires sound { sound_or batches.items ≡ Ok tt }
    ensures { Gives Memory (λ view.
        view) result (view_on number (map (λ line. line.now) lines.now)
        (view_of (standing_for form batches.items))) }
{
    let runs = runs_of(alloc, batches.as_slice())?;
    match first_other(alloc, number, lines, runs.as_slice())? {
        None => Ok(View {
            batches: Batches::new(standing_for(alloc, form, batches)?),
            runs: RunViews::new(runs),
        }),
        Some(line) => Err(DumpError::Line {
            line,
            cause: LineCause::BadView,
        }),
    }
}

/// The dump that these lines are.
#[tactic(auto, unfolding(crate::specs::Read::dump_on))]
fn dump_on(alloc: Global, lines: &[&[u8]]) -> Result<Dump, DumpError>
    ensures { Gives Memory (λ dump. dump) result (dump_on (map (λ line. line.now) lines.now)) }
{
    let heading = heading_of(alloc, lines)?;
    let body = body_of(lines)?;
    let batches = batches_on(alloc, &heading, body)?;
    sound_or(alloc, batches.as_slice())?;
    let number = 2 + batches.len() as u64;
    let view = view_on(alloc, number, view_lines(body), heading.form, batches)?;
    Ok(Dump {
        domain: heading.domain,
        workflow: heading.workflow,
        view,
    })
}

/// The dump that bytes are: what [`dump_text`] prints of a workflow, where its first line says `dump 2`; where it says
/// `dump 1`, the batches' texts are in the form without carriers, and each first batch gets the batch just before it as
/// its carrier where that one ends by continuing as its run. What is read is the view of its batches.
///
/// The refusals, the first of them: line by line, [`DumpError::Line`] with the line's number and its cause. The first
/// line is not a heading, or the second is not that of a batch ([`LineCause::BadFrame`]); then each line that begins
/// with `{`, up to the first that does not, is the text of no batch (the causes of [`ndc_text::TextError`]), is of
/// another domain or workflow ([`LineCause::Foreign`]), or has the key of the line before ([`LineCause::SameKey`]) or
/// one below it ([`LineCause::BadOrder`]). Then cause by cause, in the order of [`KeyCause`], [`DumpError::Key`] with
/// the least key that the cause holds of. Then the lines after the batches are not what the batches show:
/// [`LineCause::BadView`] at the first that differs, is missing or is one too many.
///
/// It takes time of the bytes, a look-up of the logarithm of the batches for each of them, and the path of each branch,
/// of which the view shows the history and the state. A refusal takes no more than that, whatever its cause. Beside the
/// batches that are read, it holds for a while what is learned of them, which shares their names.
///
/// [`dump_text`]: crate::dump_text
/// [`KeyCause`]: crate::KeyCause
#[tactic(auto, unfolding(crate::specs::Read::dump_of))]
pub fn read_dump(alloc: Global, bytes: &[u8]) -> Result<Dump, DumpError>
    ensures gives { Gives Memory (λ dump. dump) result (dump_of bytes.now) }
    ensures shown { IfOk result (λ dump. dump.view ≡ view_of dump.view.batches) }
    ensures sound { IfOk result (λ dump. IsSound dump.view.batches) }
{
    let lines = lines_of(alloc, bytes)?;
    dump_on(alloc, lines.as_slice())
}
