// What writes in fair worlds may be asked of cells, as laws.
ghost use Rattle.std.specs.Prelude.{ℕ, ◌+◌, ◌*◌, ◌<◌, ◌≤◌};
ghost use Rattle.ndc_script_types.specs.WellFormed.{IsCluster, IsWellFormedCommand, IsWellFormedHeader, IsWorkflowAt};
ghost use Rattle.ndc_script_types.specs.declared.script.Header.{Header as Head};
ghost use Rattle.ndc_model_cells.specs.declared.job.Job.TheVariants as job;
ghost use Rattle.ndc_model_cells.specs.Shards.{shard_of};
ghost use Rattle.ndc_command.specs.declared.command.Command.{Command as Asked};
ghost use Rattle.ndc_domain.specs.declared.clusters.ClusterNo.{ClusterNo as Number};
ghost use Rattle.ndc_event.specs.declared.name.Name.{Name as Text};
ghost use Rattle.ndc_laws_reached.specs.Writing.{count_in};
ghost use Rattle.ndc_model.specs.Facts.{IsReached};
ghost use Rattle.ndc_model.specs.Moves.{all_reapply};
ghost use Rattle.ndc_model.specs.World.{World, cell_at, home_at};
ghost use Rattle.ndc_model.specs.Conditions.{MayDoAll};
ghost use Rattle.ndc_model_cells.specs.Allowed.{IsAllowed};

/// A cell may be asked each well-formed command to a workflow that lives in it.
pub fn commands_may_be_asked()
    ensures { (header : Head) (lines : ℕ) (cluster : Number) (domain workflow : Text)
        (command : Asked) (w : World) → IsWellFormedHeader header
        → IsWorkflowAt header cluster domain workflow
        → IsWellFormedCommand command → IsReached header lines w
        → IsAllowed (home_at header cluster w) (job.Command domain workflow command) (cell_at
        cluster (shard_of domain workflow header.shards) w) }
{}

/// A cell may be asked to reset a workflow that lives in it, where fewer than 100,000 lines were run.
pub fn resets_may_be_asked()
    ensures { (header : Head) (lines : ℕ) (cluster : Number) (domain workflow : Text) (event : ℕ)
        (w : World) → IsWellFormedHeader header → IsWorkflowAt header cluster domain workflow
        → lines < 100000 → IsReached header lines w
        → IsAllowed (home_at header cluster w) (job.Reset domain workflow event) (cell_at
        cluster (shard_of domain workflow header.shards) w) }
{}

/// Each cell of a cluster may apply its strays again, one after the other, where there is room for one batch more in
/// each workflow.
pub fn strays_may_be_applied_again()
    ensures { (header : Head) (lines : ℕ) (cluster : Number) (w : World) → IsCluster header cluster
        → IsReached header lines w
        → ((domain workflow : Text) → count_in header domain workflow w + 1 ≤ 2 * lines)
        → MayDoAll IsAllowed header cluster (all_reapply header) w }
{}
