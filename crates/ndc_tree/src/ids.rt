// Events by their ids.
ghost use Rattle.std.specs.Prelude.{◌≡◌, true};
ghost use Rattle.std.specs.Option.{option_copied};
ghost use Rattle.ndc_event.specs.Batch.{are_consecutive};
ghost use Rattle.ndc_tree.specs.Events.{event_of};

use ndc_event::Event;
use ndc_model_sets::first_id;

/// The event of this id among consecutive ones, as those of a batch without a fault are.
pub fn event_in(events: &[Event], id: u64) -> Option<&Event>
    requires { are_consecutive events.now ≡ true }
    ensures { option_copied result ≡ event_of id events.now }
{
    let first = first_id(events);
    if id < first {
        return None;
    }
    events.get((id - first) as usize)
}
