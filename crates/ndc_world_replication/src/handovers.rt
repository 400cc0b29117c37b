ghost use Rattle.std.specs.Prelude.{◌≡◌, not, OnErr, OnOk};
ghost use Rattle.std.specs.List.{filter};
ghost use Rattle.ndc_model.specs.Handovers.{is_handover_of, with_handover, without_handover};

use crate::replication::Replication;
use ndc_cluster::Cell;
use ndc_event::{Name, OutOfMemory};
use ndc_graceful::Handover;

/// Takes the handovers of a domain out.
fn take_out(handovers: &mut Vec<Handover>, domain: &Name)
    ensures { handovers.new.items ≡ filter (λ handover. not (is_handover_of domain.now handover)) handovers.old.items }
{
    handovers.retain(|handover| handover.domain != *domain);
}

impl<C: Cell + Drop> Replication<C> {
    /// Opens a handover. Where memory runs out, all stays as it was.
    pub fn open_handover(&mut self, handover: Handover) -> Result<(), OutOfMemory>
        ensures opened { OnOk result (self.new ≡ with_handover handover self.old) }
        ensures unchanged { OnErr result (self.new ≡ self.old) }
    {
        self.handovers.push(handover)?;
        Ok(())
    }

    /// Ends the open handover of a domain, where there is one. Takes no memory.
    pub fn close_handover(&mut self, domain: &Name)
        ensures { self.new ≡ without_handover domain.now self.old }
    {
        take_out(&mut self.handovers, domain);
    }
}
