// Dumps without the lines of their view.
ghost use Rattle.std.specs.Prelude.{◌≡◌, [], Ok, map, IfOk};
ghost use Rattle.ndc_event.specs.Outcome.{Gives};
ghost use Rattle.ndc_model_sets.specs.Sound.{IsSound};
ghost use Rattle.ndc_model_sets.specs.View.{view_of};
ghost use Rattle.ndc_dump.specs.Bare.{bare_dump_of, bare_dump_on};
ghost use Rattle.ndc_dump.specs.Lines.{differ_at};
ghost use Rattle.ndc_dump.specs.Migrated.{standing_for};
ghost use Rattle.ndc_dump.specs.Read.{shown_or};
ghost use Rattle.ndc_dump_causes.specs.Causes.{sound_or};
ghost use Rattle.ndc_dump_causes.specs.Given.{AreRead};
ghost use Rattle.ndc_dump_causes.specs.declared.error.DumpError.TheVariants.{Memory};

use crate::batches::batches_on;
use crate::cut::lines_of;
use crate::dump::Dump;
use crate::frame::{body_of, heading_of};
use crate::migrated::standing_for;
use crate::read::view_lines;
use crate::showing::runs_of;
use ndc_dump_causes::{DumpError, LineCause, sound_or};
use ndc_event::{Batch, OutOfMemory};
use ndc_model_sets::{Batches, RunViews, View};
use ndc_text::TextForm;
use std::alloc::Global;

/// The view of the set that batches represent.
fn view_of(alloc: Global, form: TextForm, batches: Vec<Batch>) -> Result<View, OutOfMemory>
    requires read { AreRead batches.items }
    requires sound { sound_or batches.items ≡ Ok tt }
    ensures { IfOk result (λ view. view ≡ view_of (standing_for form batches.items)) }
{
    let runs = runs_of(alloc, batches.as_slice())?;
    let batches = standing_for(alloc, form, batches)?;
    Ok(View {
        batches: Batches::new(batches),
        runs: RunViews::new(runs),
    })
}

/// The view of the set that batches represent, where no line stands after them; the next would have this number.
fn bare_view(
    alloc: Global,
    number: u64,
    lines: &[&[u8]],
    form: TextForm,
    batches: Vec<Batch>,
) -> Result<View, DumpError>
    requires read { AreRead batches.items }
    requires sound { sound_or batches.items ≡ Ok tt }
    ensures { Gives Memory (λ view.
        view) result (shown_or (view_of (standing_for form batches.items))
        (differ_at number (map (λ line. line.now) lines.now) [])) }
{
    match lines {
        [] => Ok(view_of(alloc, form, batches)?),
        [_, ..] => Err(DumpError::Line {
            line: number,
            cause: LineCause::BadView,
        }),
    }
}

/// The dump whose heading and batches these lines are.
#[tactic(auto, unfolding(crate::specs::Bare::bare_dump_on))]
fn bare_dump_on(alloc: Global, lines: &[&[u8]]) -> Result<Dump, DumpError>
    ensures { Gives Memory (λ dump. dump) result (bare_dump_on (map (λ line. line.now) lines.now)) }
{
    let heading = heading_of(alloc, lines)?;
    let body = body_of(lines)?;
    let batches = batches_on(alloc, &heading, body)?;
    sound_or(alloc, batches.as_slice())?;
    let number = 2 + batches.len() as u64;
    let view = bare_view(alloc, number, view_lines(body), heading.form, batches)?;
    Ok(Dump {
        domain: heading.domain,
        workflow: heading.workflow,
        view,
    })
}

/// The dump of a workflow's batches alone: its first line is that of a dump, then the text of each batch stands on a line
/// of its own, in key order, and nothing after them. So an engine makes a dump of its own histories, whose runs,
/// branches and states it need not know: what [`read_dump`] compares with is computed here, and [`dump_text`] prints
/// it.
///
/// The refusals are those of `read_dump`, in its order; [`LineCause::BadView`] stands at the first line after the
/// batches, where there is one.
///
/// [`read_dump`]: crate::read_dump
/// [`dump_text`]: crate::dump_text
#[tactic(auto, unfolding(crate::specs::Bare::bare_dump_of))]
pub fn read_bare_dump(alloc: Global, bytes: &[u8]) -> Result<Dump, DumpError>
    ensures gives { Gives Memory (λ dump. dump) result (bare_dump_of bytes.now) }
    ensures shown { IfOk result (λ dump. dump.view ≡ view_of dump.view.batches) }
    ensures sound { IfOk result (λ dump. IsSound dump.view.batches) }
{
    let lines = lines_of(alloc, bytes)?;
    bare_dump_on(alloc, lines.as_slice())
}
