// The jobs of lines in fair worlds may be done, as laws.
ghost use Rattle.std.specs.List.{All};
ghost use Rattle.std.specs.Prelude.{ℕ, ◌+◌, ◌<◌, ◌≤◌, List, length};
ghost use Rattle.ndc_script_types.specs.WellFormed.{IsCluster, IsWellFormedAct, IsWellFormedHeader, IsWellFormedJob};
ghost use Rattle.ndc_script_types.specs.declared.script.Act.{Act as Asked};
ghost use Rattle.ndc_script_types.specs.declared.script.BurstJob.{BurstJob as Job};
ghost use Rattle.ndc_script_types.specs.declared.script.Header.{Header as Head};
ghost use Rattle.ndc_domain.specs.declared.clusters.ClusterNo.{ClusterNo as Number};
ghost use Rattle.ndc_model.specs.Allowed.{LineIsAllowed, burst_jobs};
ghost use Rattle.ndc_model.specs.Facts.{IsReached};
ghost use Rattle.ndc_model.specs.World.{World};
ghost use Rattle.ndc_model.specs.Conditions.{MayDoAll, MaySettle, MayWork};
ghost use Rattle.ndc_model_cells.specs.Allowed.{IsAllowed};

/// A cluster may work, and all may be settled, where fewer than 100,000 lines were run: each job may be done in the
/// cells that those before it leave.
pub fn work_and_settlement_may_be_done()
    ensures work { (header : Head) (lines : ℕ) (reader : Number) (w : World)
        → IsCluster header reader → lines < 100000 → IsReached header lines w
        → MayWork IsAllowed header reader w }
    ensures settlement { (header : Head) (lines : ℕ) (w : World) → lines < 100000
        → IsReached header lines w → MaySettle IsAllowed header w }
{}

/// The jobs of every well-formed line may be done, where fewer than 100,000 lines were run.
pub fn the_jobs_of_every_line_may_be_done()
    ensures { (header : Head) (lines : ℕ) (line : Asked) (w : World) → IsWellFormedHeader header
        → IsWellFormedAct header line → lines < 100000 → IsReached header lines w
        → LineIsAllowed IsAllowed header line w }
{}

/// The commands of a burst may be asked one after the other, where no more than 100,000 lines are run with them.
pub fn the_commands_of_a_burst_may_be_asked()
    ensures { (header : Head) (lines : ℕ) (cluster : Number) (jobs : List Job) (w : World)
        → IsWellFormedHeader header → IsCluster header cluster → All IsWellFormedJob jobs
        → lines + length jobs ≤ 100000 → IsReached header lines w
        → MayDoAll IsAllowed header cluster (burst_jobs header jobs) w }
{}
