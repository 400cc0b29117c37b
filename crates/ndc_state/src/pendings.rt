use crate::held::Held;
use ndc_event::{Name, OutOfMemory};
use std::alloc::Global;
use std::fmt;
use std::marker::Model;

/// Something that was scheduled and has not ended. It is shown as the id of the event that scheduled it and,
/// after `+`, of the one that started it.
#[derive(Clone, Copy, Debug, PartialEq, Eq)]
pub struct Pending {
    /// The id of the event that scheduled it.
    pub scheduled: u64,
    /// The id of the event that started it; none while it waits.
    pub started: Option<u64>,
}

impl fmt::Display for Pending {
    ghost use Rattle.std.specs.Prelude.{Some};
    ghost use Rattle.ndc_state.specs.Text.{pending_text};

    ghost output = { λ pending. Some (pending_text pending) };

    fn fmt<W: fmt::Write>(&self, f: &mut fmt::Formatter<W>) -> fmt::Result {
        let scheduled = self.scheduled;
        match self.started {
            None => write!(f, "{scheduled}"),
            Some(started) => write!(f, "{scheduled}+{started}"),
        }
    }
}

/// What is pending by name, in the order of scheduling, with what takes it back to how it was at the last
/// mark. Where nothing is, it holds no memory.
#[derive(Drop)]
pub(crate) struct Pendings {
    alloc: Global,
    held: Option<Box<Held>>,
}

impl Model for Pendings {
    ghost use Rattle.std.specs.Prelude.{List};
    ghost use Rattle.ndc_event.specs.declared.name.Name.{Name};
    ghost use Rattle.ndc_state.specs.declared.pendings.Pending.{Pending};
    ghost use Rattle.ndc_state.specs.Marked.{Marked};

    ghost Value = { Marked (List (Name × Pending)) };

    ghost use Rattle.ndc_state.specs.Marked.{boxed_or_nothing};

    ghost view = { λ pendings. boxed_or_nothing pendings.held };
}

impl Pendings {
    ghost use Rattle.std.specs.Prelude.{◌≡◌, [], IsTrue, None, OnOk, OnErr, IfOk, length, slice_get};
    ghost use Rattle.std.specs.Map.{values_of};
    ghost use Rattle.ndc_state.specs.Pendings.{pending_of, with_scheduled, with_started, without, is_waiting};

    /// Nothing is pending.
    pub(crate) fn new(alloc: Global) -> Pendings
        ensures current { result.current ≡ [] }
        ensures marked { result.marked ≡ [] }
    {
        Pendings { alloc, held: None }
    }

    /// What is pending under the name.
    pub(crate) fn get(&self, name: &Name) -> Option<Pending>
        ensures { result ≡ pending_of name.now self.now.current }
    {
        match &self.held {
            None => None,
            Some(held) => held.get(name),
        }
    }

    /// Puts the name last, scheduled by this event.
    pub(crate) fn schedule(&mut self, name: Name, id: u64) -> Result<(), OutOfMemory>
        requires { pending_of name self.old.current ≡ None }
        ensures current { OnOk result (self.new.current ≡ with_scheduled name id self.old.current) }
        ensures marked { self.new.marked ≡ self.old.marked }
        ensures err { OnErr result (self.new ≡ self.old) }
    {
        if let Some(held) = &mut self.held {
            return held.schedule(name, id);
        }
        let mut held = Held::new(self.alloc);
        held.schedule(name, id)?;
        self.held = Some(Box::new(self.alloc, held)?);
        Ok(())
    }

    /// Notes that the event starts the name.
    pub(crate) fn start(&mut self, name: &Name, id: u64) -> Result<(), OutOfMemory>
        requires { IsTrue (is_waiting (pending_of name.now self.old.current)) }
        ensures current { OnOk result
            (self.new.current ≡ with_started name.now id self.old.current) }
        ensures marked { self.new.marked ≡ self.old.marked }
        ensures err { OnErr result (self.new ≡ self.old) }
    {
        if let Some(held) = &mut self.held {
            return held.start(name, id);
        }
        Ok(())
    }

    /// Takes the name out.
    pub(crate) fn remove(&mut self, name: &Name) -> Result<(), OutOfMemory>
        ensures current { OnOk result (self.new.current ≡ without name.now self.old.current) }
        ensures marked { self.new.marked ≡ self.old.marked }
        ensures err { OnErr result (self.new ≡ self.old) }
    {
        if let Some(held) = &mut self.held {
            return held.remove(name);
        }
        Ok(())
    }

    /// Makes what is pending now the mark. Where nothing is, the memory is given back.
    pub(crate) fn mark(&mut self)
        ensures current { self.new.current ≡ self.old.current }
        ensures marked { self.new.marked ≡ self.old.current }
    {
        if self.len() == 0 {
            self.held = None;
            return;
        }
        if let Some(held) = &mut self.held {
            held.mark();
        }
    }

    /// Goes back to the mark.
    pub(crate) fn revert(&mut self)
        ensures current { self.new.current ≡ self.old.marked }
        ensures marked { self.new.marked ≡ self.old.marked }
    {
        if let Some(held) = &mut self.held {
            held.revert();
        }
    }

    /// How many names are pending.
    pub(crate) fn len(&self) -> usize
        ensures { result ≡ length self.now.current }
    {
        match &self.held {
            None => 0,
            Some(held) => held.len(),
        }
    }

    /// What is pending at a place in the order of scheduling.
    pub(crate) fn at(&self, place: usize) -> Option<Pending>
        ensures { result ≡ slice_get (values_of self.now.current) place }
    {
        match &self.held {
            None => None,
            Some(held) => held.at(place),
        }
    }

    /// The same names, pending as they are now.
    pub(crate) fn try_copy(&self) -> Result<Pendings, OutOfMemory>
        ensures { IfOk result (λ copy. copy.current ≡ self.now.current) }
    {
        let mut copy = Pendings::new(self.alloc);
        if let Some(held) = &self.held {
            copy.held = Some(Box::new(self.alloc, held.try_copy()?)?);
        }
        Ok(copy)
    }

    /// What its memory comes from.
    pub(crate) fn allocator(&self) -> Global {
        self.alloc
    }
}
