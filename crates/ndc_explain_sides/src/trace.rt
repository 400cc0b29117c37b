//! Events of the two sides.
use ndc_event::{BatchKey, Event, RunId};
use std::marker::Model;

/// An event that stands on a current branch.
#[derive(Drop)]
pub struct Trace<'v> {
    /// The run of its batch.
    pub run: RunId,
    /// The key of its batch.
    pub key: BatchKey,
    /// The event.
    pub event: &'v Event,
    /// The batch up to which it is matched with events that do not stand.
    pub reach: BatchKey,
}

impl<'v> Model for Trace<'v> {
    ghost use Rattle.ndc_explain_sides.specs.Traces.{Traced};

    ghost Value = { Traced };

    ghost view = { λ trace. record {
      run = trace.run;
      key = trace.key;
      event = trace.event.now;
      reach = trace.reach;
    } };
}

impl<'v> Trace<'v> {
    ghost use Rattle.std.specs.Prelude.{◌≡◌};

    /// The same event, matched up to the same batch.
    pub(crate) fn copied(&self) -> Trace<'v>
        ensures { result ≡ self.now }
    {
        Trace {
            run: self.run,
            key: self.key,
            event: self.event,
            reach: self.reach,
        }
    }
}

/// An event that stands on no current branch.
#[derive(Drop)]
pub struct Loss<'v> {
    /// The run of its batch.
    pub run: RunId,
    /// The key of its batch.
    pub key: BatchKey,
    /// The event.
    pub event: &'v Event,
    /// Whether what happened in it happened on a current branch as well.
    pub is_both: bool,
    /// The event there: the last one in which that happened, or else the last one about the same.
    pub beside: Option<Trace<'v>>,
}

impl<'v> Model for Loss<'v> {
    ghost use Rattle.ndc_explain_sides.specs.Sides.{Lost};

    ghost Value = { Lost };

    ghost view = { λ loss. record {
      run = loss.run;
      key = loss.key;
      event = loss.event.now;
      is_both = loss.is_both;
      beside = loss.beside;
    } };
}
