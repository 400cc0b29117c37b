ghost use Rattle.std.specs.Prelude.{◌≡◌, Option, None, Some, option_map};
ghost use Rattle.ndc_c.specs.Held.{held};
ghost use Rattle.ndc_c.specs.contracts.context.Context.{the_row};
ghost use Rattle.ndc_c.specs.declared.context.Context.{Context};

use crate::context::Context;
use ndc_loose::Loose;
use std::alloc::Global;
use std::marker::Model;
use std::ptr::null_mut;

/// What C keeps of a node: one pointer, null where there is none. A handle of zeros has no node.
#[repr(C)]
#[derive(Drop)]
pub struct Handle {
    at: *mut u8,
    /// The node, and what waits to be fetched of it.
    pub ghost context: { Option Context },
}

impl Model for Handle {
    ghost also_owns = { λ handle. held the_row handle.at handle.context };
}

impl Handle {
    /// A handle without a node.
    pub fn null() -> Handle
        ensures { result.context ≡ None }
    {
        Handle { at: null_mut() }
    }

    /// The handle of a node.
    pub fn of(context: Loose<Context, Global>) -> Handle
        ensures { result.context ≡ Some context.value }
    {
        let Loose { at, alloc: _ } = context;
        Handle { at: at as *mut u8 }
    }

    /// The node of a handle. None where it has none.
    pub fn into_loose(self, alloc: Global) -> Option<Loose<Context, Global>>
        ensures { option_map (λ loose. loose.value) result ≡ self.context }
    {
        let Handle { at } = self;
        if at.is_null() {
            None
        } else {
            Some(Loose {
                at: at as *mut Context,
                alloc,
            })
        }
    }
}
