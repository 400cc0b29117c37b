// Reapplication and settlement in fair worlds, as laws.
ghost use Rattle.std.specs.Prelude.{ℕ, ◌+◌, ◌*◌, ◌<◌, ◌≤◌};
ghost use Rattle.ndc_script_types.specs.WellFormed.{IsCluster};
ghost use Rattle.ndc_script_types.specs.declared.script.Header.{Header as Head};
ghost use Rattle.ndc_domain.specs.declared.clusters.ClusterNo.{ClusterNo as Number};
ghost use Rattle.ndc_event.specs.declared.name.Name.{Name};
ghost use Rattle.ndc_laws_reached.specs.Writing.{ApplyingKeeps, count_in};
ghost use Rattle.ndc_model.specs.Facts.{IsReached};
ghost use Rattle.ndc_model.specs.Moves.{Trace, reapplied_all, settled_once};
ghost use Rattle.ndc_model.specs.Sending.{settle_step, work_step};
ghost use Rattle.ndc_model.specs.World.{World};

/// A cluster may apply its strays again in all of its workflows, where reapplication in one workflow keeps worlds
/// reached and there is room for one batch more in each: the world stays as it should be, and no workflow gets more
/// than one batch.
pub fn reapplication_keeps_worlds_reached()
    ensures reached { (header : Head) (lines : ℕ) (cluster : Number) (t : Trace)
        → IsCluster header cluster → ApplyingKeeps header lines → IsReached header lines t.world
        → ((domain workflow : Name) → count_in header domain workflow t.world + 1 ≤ 2 * lines)
        → IsReached header lines (reapplied_all header t cluster).world }
    ensures most { (header : Head) (lines : ℕ) (cluster : Number) (t : Trace)
        → IsCluster header cluster → ApplyingKeeps header lines → IsReached header lines t.world
        → ((domain workflow : Name) → count_in header domain workflow t.world + 1 ≤ 2 * lines)
        → (domain workflow : Name)
        → count_in header domain workflow (reapplied_all header t cluster).world
        ≤ count_in header domain workflow t.world + 1 }
{}

/// A cluster may work: the world stays as it should be, with one line more.
pub fn work_keeps_worlds_reached()
    ensures { (header : Head) (lines : ℕ) (cluster : Number) (w : World) → IsCluster header cluster
        → lines < 100000 → ApplyingKeeps header (lines + 1) → IsReached header lines w
        → IsReached header (lines + 1) (work_step header cluster w).world }
{}

/// A round of settlement keeps a world as it should be, where there is room for one batch more in each workflow, and
/// no workflow gets more than one batch.
pub fn rounds_of_settlement_keep_worlds_reached()
    ensures reached { (header : Head) (lines : ℕ) (t : Trace) → ApplyingKeeps header lines
        → IsReached header lines t.world
        → ((domain workflow : Name) → count_in header domain workflow t.world + 1 ≤ 2 * lines)
        → IsReached header lines (settled_once header t).world }
    ensures most { (header : Head) (lines : ℕ) (t : Trace) → ApplyingKeeps header lines
        → IsReached header lines t.world
        → ((domain workflow : Name) → count_in header domain workflow t.world + 1 ≤ 2 * lines)
        → (domain workflow : Name)
        → count_in header domain workflow (settled_once header t).world
        ≤ count_in header domain workflow t.world + 1 }
{}

/// All may be settled: the world stays as it should be, with one line more.
pub fn settlement_keeps_worlds_reached()
    ensures { (header : Head) (lines : ℕ) (w : World) → lines < 100000
        → ApplyingKeeps header (lines + 1) → IsReached header lines w
        → IsReached header (lines + 1) (settle_step header w).world }
{}
