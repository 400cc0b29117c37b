ghost use Rattle.std.specs.Prelude.{◌≡◌, IfOk};
ghost use Rattle.std.specs.Map.{values_of};
ghost use Rattle.std.specs.String.{string_bytes};
ghost use Rattle.ndc_state.specs.Text.{decision_text, list_text, state_text, yes_or_no};

use crate::pendings::{Pending, Pendings};
use crate::tracked::Tracked;
use ndc_event::OutOfMemory;
use std::alloc::Global;

/// A state in one line.
pub(crate) fn state_text(alloc: Global, state: &Tracked) -> Result<Vec<u8>, OutOfMemory>
    ensures { IfOk result (λ text. text.items ≡ state_text state.now.current) }
{
    let outline = state.outline;
    let next = outline.next;
    let decision = decision_text(alloc, outline.decision)?;
    let activities = list_text(alloc, &state.activities)?;
    let timers = list_text(alloc, &state.timers)?;
    let children = list_text(alloc, &state.children)?;
    let signals = state.origins.len();
    let cancel = yes_or_no(outline.cancel);
    let text = format!(in alloc;
        "next={next} decision={decision} activities={activities} timers={timers} children={children} signals={signals} cancel={cancel}"
    )?;
    Ok(text.into_bytes())
}

/// The pending decision, or a dash.
fn decision_text(alloc: Global, decision: Option<Pending>) -> Result<String, OutOfMemory>
    ensures { IfOk result (λ text. string_bytes text ≡ decision_text decision) }
{
    match decision {
        None => String::from_str(alloc, "-"),
        Some(pending) => format!(in alloc; "{pending}"),
    }
}

/// What is pending in the order of scheduling, with commas, or a dash.
fn list_text(alloc: Global, pendings: &Pendings) -> Result<String, OutOfMemory>
    ensures { IfOk result (λ text. string_bytes text ≡ list_text (values_of pendings.now.current)) }
{
    let Some(first) = pendings.at(0) else {
        return String::from_str(alloc, "-");
    };
    let mut text = format!(in alloc; "{first}")?;
    for place in 1..pendings.len() {
        match pendings.at(place) {
            Some(pending) => write!(text, ",{pending}")?,
            None => {}
        }
    }
    Ok(text)
}

fn yes_or_no(flag: bool) -> &'static str
    ensures { result.now ≡ yes_or_no flag }
{
    if flag { "yes" } else { "no" }
}
