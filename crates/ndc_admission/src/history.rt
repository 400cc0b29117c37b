// Whether the version history of a message ends with its batch, and whether it continues another.
ghost use Rattle.std.specs.Prelude.{◌≡◌, IfOk};
ghost use Rattle.ndc_admission.specs.History.{history_continues, history_ends, item_of_batch, same_items};

use ndc_event::{Batch, OutOfMemory};
use ndc_history::{AddError, Item, VersionHistory};
use ndc_model_cells::Message;
use ndc_model_sets::last_id;
use std::alloc::AllocError;

/// The item of a batch: the id of its last event, and its version.
fn item_of(batch: &Batch) -> Item
    ensures { result ≡ item_of_batch batch.now }
{
    Item {
        id: last_id(batch.events.as_slice()),
        version: batch.key.version,
    }
}

/// Whether two histories have the same items.
fn are_same(one: &[Item], two: &[Item]) -> bool
    ensures { result ≡ same_items one.now two.now }
{
    one == two
}

/// Whether the version history of the message is not empty, and its last item has the id of the batch's last event and
/// the batch's version. So it is where the message is one of a sound set: the law
/// [`crate::histories_of_a_sound_set_end_with_their_batch`]. It looks at the last event and the last item alone.
pub fn history_ends(message: &Message) -> bool
    ensures { result ≡ history_ends message.now }
{
    message.history.appendable(item_of(&message.batch))
}

/// Whether the version history of the message is the one before it with the item of its batch added. The one before it is
/// that of the path to the batch's parent, and empty where there is no parent. So it is where the message is one of a sound
/// set: the law [`crate::histories_of_a_sound_set_are_those_of_their_paths`]. In time of the versions on the path.
pub fn history_continues(mut before: VersionHistory, message: &Message) -> Result<bool, OutOfMemory>
    ensures { IfOk result (λ continues. continues ≡ history_continues before message.now) }
{
    match before.add(item_of(&message.batch)) {
        Ok(()) => Ok(are_same(before.items(), message.history.items())),
        Err(AddError::NotAfter) => Ok(false),
        Err(AddError::Memory) => Err(AllocError),
    }
}
