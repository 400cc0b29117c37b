//! Pieces of frames.
ghost use Rattle.std.specs.Prelude.{◌≡◌, map};
ghost use Rattle.ndc_event.specs.Outcome.{Gives};
ghost use Rattle.ndc_node_frames.specs.Parts.{small};
ghost use Rattle.ndc_node_shapes.specs.Read.{read_of};
ghost use Rattle.ndc_node_shapes.specs.Shapes.{list};
ghost use Rattle.ndc_node_shapes.specs.declared.fault.Fault.TheVariants.{Memory};

use ndc_event::Items;
use ndc_node_shapes::framed::take_list;
use ndc_node_shapes::piece::take_number;
use ndc_node_shapes::{Fault, Framed};
use std::alloc::Global;

/// The greatest level, place, epoch or count in a frame.
pub(crate) const MAX_LEVEL: u64 = 1_000_000_000_000;

/// The greatest number of 32 bits.
const MAX_SMALL: u64 = 4_294_967_295;

/// Takes a number of 32 bits.
pub(crate) fn take_small(left: &[u8]) -> Result<(u32, &[u8]), Fault>
    ensures { Gives Memory (λ taken. (taken.0, taken.1.now)) result (read_of small left.now) }
{
    let (number, left) = take_number(left, 0, MAX_SMALL)?;
    Ok((number as u32, left))
}

/// Takes a list of items.
pub(crate) fn take_items<T: Framed>(alloc: Global, left: &[u8]) -> Result<(Items<T>, &[u8]), Fault>
    ensures { Gives Memory (λ taken. (map T.value taken.0, taken.1.now)) result
        (read_of (list T.shape) left.now) }
{
    let (items, left) = take_list::<T>(alloc, left)?;
    Ok((Items::new(items), left))
}
