// What handovers have ended, as laws.
ghost use Rattle.std.specs.List.{AllByRecursion, IsAmong};
ghost use Rattle.std.specs.Prelude.{◌≡◌, ◌≢◌, ℕ, ◌+◌, ◌≤◌, List, ◌++◌, length, Ok};
ghost use Rattle.ndc_script_types.specs.WellFormed.{IsWellFormed, IsWellFormedHeader};
ghost use Rattle.ndc_script_types.specs.declared.script.Header.{Header as Head};
ghost use Rattle.ndc_script_types.specs.declared.script.Line.{Line as ScriptLine};
ghost use Rattle.ndc_model_cells.specs.Writing.{may_write};
ghost use Rattle.ndc_domain.specs.declared.clusters.ClusterNo.{ClusterNo as Number};
ghost use Rattle.ndc_event.specs.declared.batch.Batch.{Batch as OneBatch};
ghost use Rattle.ndc_event.specs.declared.name.Name.{Name as Text};
ghost use Rattle.ndc_laws.specs.Grown.{IsWellFormedLine, world_after};
ghost use Rattle.ndc_graceful.specs.declared.handover.Handover.{Handover};
ghost use Rattle.ndc_laws.specs.Promised.{world_before};
ghost use Rattle.ndc_model.specs.Facts.{IsReached};
ghost use Rattle.ndc_model.specs.Fair.{written_of};
ghost use Rattle.ndc_model.specs.Laws.{script_of};
ghost use Rattle.ndc_model.specs.World.{World, cell_of, home_at};
ghost use Rattle.ndc_model_sets.specs.Sets.{Has};

/// Where a handover is open in a reached world, no cluster may write to its domain with the old version in any world
/// that further well-formed lines lead to, also once the handover is completed.
pub fn an_ended_version_stays_ended()
    ensures { (header : Head) (lines : ℕ) (more : List ScriptLine) (w : World) (handover : Handover)
        → IsWellFormedHeader header → AllByRecursion (IsWellFormedLine header) more
        → lines + length more ≤ 100000 → IsReached header lines w
        → IsAmong w.handovers handover → (cluster : Number) (workflow : Text) (version : ℕ)
        → may_write (home_at header cluster
        (world_after header more w)) handover.domain workflow (cell_of header cluster
        handover.domain workflow (world_after header more w)) ≡ Ok version
        → version ≢ handover.old }
{}

/// Where a handover is open after some lines of a well-formed script, no cluster may write to its domain with the old
/// version after these or more of its lines.
pub fn in_a_script_an_ended_version_stays_ended()
    ensures { (header : Head) (front back : List ScriptLine) (handover : Handover)
        → IsWellFormed (script_of header (front ++ back))
        → IsAmong (world_before header front).handovers handover
        → (cluster : Number) (workflow : Text) (version : ℕ)
        → may_write (home_at header cluster
        (world_before header (front ++ back))) handover.domain workflow (cell_of header cluster
        handover.domain workflow (world_before header (front ++ back))) ≡ Ok version
        → version ≢ handover.old }
{}

/// Where a handover is open in a reached world, nothing more is written to its domain with the old version in any world
/// that further well-formed lines lead to, also once the handover is completed: each batch of the old version that stands
/// among all that was written then was written already.
pub fn nothing_more_is_written_with_an_ended_version()
    ensures { (header : Head) (lines : ℕ) (more : List ScriptLine) (w : World) (handover : Handover)
        → IsWellFormedHeader header → AllByRecursion (IsWellFormedLine header) more
        → lines + length more ≤ 100000 → IsReached header lines w
        → IsAmong w.handovers handover → (workflow : Text) (b : OneBatch)
        → Has (written_of header handover.domain workflow (world_after header more w)) b
        → b.key.version ≡ handover.old
        → Has (written_of header handover.domain workflow w) b }
{}

/// Where a handover is open after some lines of a well-formed script, each batch that these or more of its lines wrote
/// to the domain with the old version was written by these already.
pub fn in_a_script_nothing_more_is_written_with_an_ended_version()
    ensures { (header : Head) (front back : List ScriptLine) (handover : Handover)
        → IsWellFormed (script_of header (front ++ back))
        → IsAmong (world_before header front).handovers handover
        → (workflow : Text) (b : OneBatch)
        → Has (written_of header handover.domain workflow
        (world_before header (front ++ back))) b → b.key.version ≡ handover.old
        → Has (written_of header handover.domain workflow (world_before header front)) b }
{}
