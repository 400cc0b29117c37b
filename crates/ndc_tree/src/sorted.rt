//! Sorted lists.
ghost use Rattle.std.specs.Prelude.{◌≡◌, ◌≤◌, length, insert, OnOk, OnErr};

use ndc_event::OutOfMemory;

/// Takes room where there is none: for one item at first, then for as many as there are.
fn room<T>(items: &mut Vec<T>) -> Result<(), OutOfMemory>
    ensures { items.new.items ≡ items.old.items }
{
    if items.len() < items.capacity() {
        return Ok(());
    }
    items.reserve_exact(items.len().max(1))
}

/// Puts the item to the place. Room grows from one item on to twice as many; for want of memory the list is as it
/// was.
pub fn put<T: Drop>(items: &mut Vec<T>, place: usize, item: T) -> Result<(), OutOfMemory>
    requires { place ≤ length items.old.items }
    ensures ok { OnOk result (items.new.items ≡ insert items.old.items place item) }
    ensures err { OnErr result (items.new.items ≡ items.old.items) }
{
    room(items)?;
    items.insert(place, item)?;
    Ok(())
}
