ghost use Rattle.std.specs.Prelude.{◌≡◌};
ghost use Rattle.ndc_state.specs.Origins.{origin_of};

use crate::listed::Listed;
use ndc_event::{Event, EventKind, Origin, OutOfMemory, Rare, RunId};
use std::alloc::Global;
use std::marker::Model;

/// The origins of a run's signals, in order and each once, with what takes them back to how they were at
/// the last mark. Where there is none, they hold no memory.
#[derive(Drop)]
pub(crate) struct Origins {
    alloc: Global,
    listed: Option<Box<Listed>>,
}

impl Model for Origins {
    ghost use Rattle.std.specs.Prelude.{List};
    ghost use Rattle.ndc_event.specs.declared.key.Origin.{Origin};
    ghost use Rattle.ndc_state.specs.Marked.{Marked};

    ghost Value = { Marked (List Origin) };

    ghost use Rattle.ndc_state.specs.Marked.{boxed_or_nothing};

    ghost view = { λ origins. boxed_or_nothing origins.listed };
}

/// The origin of a signal event of the run: the one that a copy names, or the event itself.
pub fn origin_of(run: RunId, event: &Event, origin: &Rare<Origin>) -> Origin
    ensures { result ≡ origin_of run event.now.id event.now.version origin.now }
{
    match origin.as_ref() {
        None => Origin {
            run,
            event: event.id,
            version: event.version,
        },
        Some(origin) => *origin,
    }
}

impl Origins {
    ghost use Rattle.std.specs.Prelude.{◌≡◌, [], OnOk, OnErr, IfOk, length};
    ghost use Rattle.ndc_state.specs.Origins.{is_among, with_origin};
    ghost use Rattle.ndc_state.specs.Replay.{collected, collected_by};

    /// There is no origin.
    pub(crate) fn new(alloc: Global) -> Origins
        ensures current { result.current ≡ [] }
        ensures marked { result.marked ≡ [] }
    {
        Origins {
            alloc,
            listed: None,
        }
    }

    /// The origins, in order.
    pub(crate) fn as_slice(&self) -> &[Origin]
        ensures { result.now ≡ self.now.current }
    {
        match &self.listed {
            None => &[],
            Some(listed) => listed.as_slice(),
        }
    }

    /// How many there are.
    pub(crate) fn len(&self) -> usize
        ensures { result ≡ length self.now.current }
    {
        self.as_slice().len()
    }

    /// Whether the origin is listed. It is found without going over the others.
    pub(crate) fn contains(&self, origin: Origin) -> bool
        ensures { result ≡ is_among origin self.now.current }
    {
        match &self.listed {
            None => false,
            Some(listed) => listed.contains(origin),
        }
    }

    /// Puts the origin last, unless it is listed.
    pub(crate) fn insert(&mut self, origin: Origin) -> Result<(), OutOfMemory>
        ensures current { OnOk result (self.new.current ≡ with_origin origin self.old.current) }
        ensures marked { self.new.marked ≡ self.old.marked }
        ensures err { OnErr result (self.new ≡ self.old) }
    {
        if let Some(listed) = &mut self.listed {
            return listed.insert(origin);
        }
        let mut listed = Listed::new(self.alloc);
        listed.insert(origin)?;
        self.listed = Some(Box::new(self.alloc, listed)?);
        Ok(())
    }

    /// Makes the origins listed now the mark.
    pub(crate) fn mark(&mut self)
        ensures current { self.new.current ≡ self.old.current }
        ensures marked { self.new.marked ≡ self.old.current }
    {
        if let Some(listed) = &mut self.listed {
            listed.mark();
        }
    }

    /// Goes back to the mark.
    pub(crate) fn revert(&mut self)
        ensures current { self.new.current ≡ self.old.marked }
        ensures marked { self.new.marked ≡ self.old.marked }
    {
        if let Some(listed) = &mut self.listed {
            listed.revert();
        }
    }

    /// The same origins as they are now.
    pub(crate) fn try_copy(&self) -> Result<Origins, OutOfMemory>
        ensures { IfOk result (λ copy. copy.current ≡ self.now.current) }
    {
        let mut copy = Origins::new(self.alloc);
        if let Some(listed) = &self.listed {
            copy.listed = Some(Box::new(self.alloc, listed.try_copy()?)?);
        }
        Ok(copy)
    }

    /// Lists the origin of the event, where it is a signal.
    fn collect_one(&mut self, run: RunId, event: &Event) -> Result<(), OutOfMemory>
        ensures current { OnOk result
            (self.new.current ≡ collected_by run event.now.id event.now.version event.now.kind
            self.old.current) }
        ensures marked { self.new.marked ≡ self.old.marked }
    {
        match &event.kind {
            EventKind::WorkflowExecutionSignaled { origin, .. } => {
                self.insert(origin_of(run, event, origin))?;
                Ok(())
            }
            _ => Ok(()),
        }
    }

    /// Lists the origins of the signals among the events, or goes back to where it was.
    pub(crate) fn collect(&mut self, run: RunId, events: &[Event]) -> Result<(), OutOfMemory>
        ensures ok { OnOk result (self.new.current ≡ collected run self.old.current events.now) }
        ensures err { OnErr result (self.new.current ≡ self.old.current) }
    {
        self.mark();
        for event in events {
            if let Err(error) = self.collect_one(run, event) {
                self.revert();
                return Err(error);
            }
        }
        Ok(())
    }
}
