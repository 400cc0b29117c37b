// The end of a handover, as laws.
ghost use Rattle.std.specs.List.{IsAmong};
ghost use Rattle.std.specs.Prelude.{◌≡◌, ◌≢◌, ℕ, ◌≤◌, Some, Ok};
ghost use Rattle.ndc_script_types.specs.WellFormed.{IsWellFormedHeader};
ghost use Rattle.ndc_script_types.specs.declared.script.Act.TheVariants as act;
ghost use Rattle.ndc_script_types.specs.declared.script.Header.{Header as Head};
ghost use Rattle.ndc_model_cells.specs.Writing.{may_write};
ghost use Rattle.ndc_domain.specs.declared.clusters.ClusterNo.{ClusterNo as Number};
ghost use Rattle.ndc_event.specs.declared.batch.Batch.{Batch};
ghost use Rattle.ndc_event.specs.declared.name.Name.{Name as Text};
ghost use Rattle.ndc_graceful.specs.declared.handover.Handover.{Handover};
ghost use Rattle.ndc_laws.specs.HandedOver.{GoesOnAtTheEnd};
ghost use Rattle.ndc_model.specs.Facts.{IsReached};
ghost use Rattle.ndc_model.specs.Fair.{written_of};
ghost use Rattle.ndc_model.specs.Handovers.{handover_to, ready_in};
ghost use Rattle.ndc_model.specs.Lines.{act_step};
ghost use Rattle.ndc_model.specs.Reading.{learned_at};
ghost use Rattle.ndc_model.specs.World.{World, cell_of, home_at};
ghost use Rattle.ndc_model_sets.specs.Branches.{current_tip};
ghost use Rattle.ndc_model_sets.specs.Sets.{Has};

/// Where `complete` ends a handover to its cluster, this has learned every batch of the domain that was written with the
/// old version. In each run that has such a batch, where no batch of the workflow has a greater version, the current
/// branch at the cluster is that of all that was written.
pub fn at_the_end_of_a_handover_all_of_the_old_version_is_learned()
    ensures learned { (header : Head) (lines : ℕ) (w : World) (at : Number) (domain workflow : Text)
        (handover : Handover) (b : Batch) → IsWellFormedHeader header → IsReached header lines w
        → handover_to at domain w ≡ Some handover → ready_in handover w ≡ Ok tt
        → Has (written_of header handover.domain workflow w) b → b.key.version ≡ handover.old
        → Has (learned_at header handover.to handover.domain workflow w) b }
    ensures current { (header : Head) (lines : ℕ) (w : World) (at : Number) (domain workflow : Text)
        (handover : Handover) (b : Batch) → IsWellFormedHeader header → IsReached header lines w
        → handover_to at domain w ≡ Some handover → ready_in handover w ≡ Ok tt
        → Has (written_of header handover.domain workflow w) b → b.key.version ≡ handover.old
        → ((other : Batch) → Has (written_of header handover.domain workflow w) other
        → other.key.version ≤ handover.old)
        → current_tip b.run (learned_at header handover.to handover.domain workflow w)
        ≡ current_tip b.run (written_of header handover.domain workflow w) }
{}

/// After `complete` of a handover to a cluster, in each workflow of the domain that has a batch of the old version and
/// none of a greater one, the tip of the cluster's current run has no child in all that was written, and whatever the
/// cluster writes next, by a command, a reset or reapplication, begins a run or goes below it.
pub fn behind_a_handover_the_target_goes_on_where_all_that_was_written_ends()
    ensures { (header : Head) (lines : ℕ) (w : World) (at : Number) (domain workflow : Text)
        (handover : Handover) (b : Batch) → IsWellFormedHeader header → IsReached header lines w
        → handover_to at domain w ≡ Some handover → ready_in handover w ≡ Ok tt
        → Has (written_of header handover.domain workflow w) b → b.key.version ≡ handover.old
        → ((other : Batch) → Has (written_of header handover.domain workflow w) other
        → other.key.version ≤ handover.old)
        → GoesOnAtTheEnd header handover.to handover.domain workflow (act_step header
        (act.Complete at domain) w).world }
{}

/// While a handover is open no cluster may write to its domain with the old version.
pub fn an_open_handover_ends_the_old_version()
    ensures { (header : Head) (lines : ℕ) (w : World) (handover : Handover)
        → IsReached header lines w → IsAmong w.handovers handover
        → (cluster : Number) (workflow : Text) (version : ℕ)
        → may_write (home_at header cluster w) handover.domain workflow (cell_of header cluster
        handover.domain workflow w) ≡ Ok version → version ≢ handover.old }
{}
