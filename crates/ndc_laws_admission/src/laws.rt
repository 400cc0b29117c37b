//! The functions do nothing: what each ensures is the law.
ghost use Rattle.std.specs.Prelude.{◌≡◌, List};
ghost use Rattle.ndc_event.specs.declared.batch.Batch.{Batch as One};
ghost use Rattle.ndc_laws_admission.specs.Honest.{IsHonest};
ghost use Rattle.ndc_model_cells.specs.Workflow.{WorkflowValue};
ghost use Rattle.ndc_model_cells.specs.declared.message.Message.{Message as Sent};
ghost use Rattle.ndc_model_sets.specs.Learned.{learned};
ghost use Rattle.ndc_model_sets.specs.Sound.{IsSound};
ghost use Rattle.ndc_shard_workflows.specs.Admitting.{IsAdmitted};
ghost use Rattle.ndc_shard_workflows.specs.Terms.{TermsValue};
ghost use Rattle.ndc_shard_workflows.specs.Workflow.{after_arrival, IsWorkflow};
ghost use Rattle.ndc_shard_workflows.specs.declared.admission.Admission.{Admission as Told};

/// A message of a sound set of batches that holds all that has arrived of the workflow is admitted as it arrives: the
/// workflow is then what the arrival makes of it. So a cell that trusts nobody does with honest messages what one does
/// that trusts its peers; none is refused, and nothing is set aside.
pub fn honest_messages_are_admitted_as_they_arrive()
    ensures { (terms : TermsValue) (all : List One) (sent : Sent) (told : Told)
        (before after : WorkflowValue)
        → IsWorkflow before → IsSound (learned before.arrived)
        → IsHonest terms all sent before
        → IsAdmitted terms sent told before after
        → after ≡ after_arrival sent before }
{}
