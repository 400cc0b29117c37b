// What clusters show in every world that is as it should be, as laws.
ghost use Rattle.std.specs.Prelude.{◌↔◌, ℕ, ◌<◌};
ghost use Rattle.ndc_script_types.specs.WellFormed.{IsCluster, IsWellFormedHeader};
ghost use Rattle.ndc_script_types.specs.declared.script.Header.{Header as Head};
ghost use Rattle.ndc_domain.specs.declared.clusters.ClusterNo.{ClusterNo as Number};
ghost use Rattle.ndc_event.specs.declared.name.Name.{Name as Text};
ghost use Rattle.ndc_laws_reached.specs.OneWriter.{EachHasOneCurrent};
ghost use Rattle.ndc_laws.specs.Promised.{AnswerAlike, ComparesSame, LearnedTheSame, StatesAreReplays, TipsDiffer, WaitsForAncestors};
ghost use Rattle.ndc_model.specs.Facts.{IsReached};
ghost use Rattle.ndc_model.specs.Reading.{learned_at};
ghost use Rattle.ndc_model.specs.World.{World, cell_at};
ghost use Rattle.ndc_model_sets.specs.Sound.{OriginsDiffer};

/// Clusters that have learned the same batches of a workflow have equal dumps of it, and answer `history`, `branches`,
/// `current`, `state` and `dump` alike.
pub fn clusters_that_learned_the_same_answer_alike()
    ensures { (header : Head) (lines : ℕ) (w : World) (one two : Number) (domain workflow : Text)
        → IsWellFormedHeader header → IsReached header lines w → IsCluster header one
        → IsCluster header two
        → LearnedTheSame header one two domain workflow w
        → AnswerAlike header one two domain workflow w }
{}

/// `compare` answers `same` exactly where two clusters have learned the same batches of a workflow.
pub fn compare_answers_same_exactly_where_the_same_is_learned()
    ensures { (header : Head) (lines : ℕ) (w : World) (one two : Number) (domain workflow : Text)
        → IsWellFormedHeader header → IsReached header lines w → IsCluster header one
        → IsCluster header two
        → ComparesSame header one two domain workflow w
        ↔ LearnedTheSame header one two domain workflow w }
{}

/// Each run of which a cluster has learned anything has exactly one branch whose last version is greater than that of
/// every other, and it is the current one; no two runs have one tip.
pub fn each_run_has_one_current_branch()
    ensures current { (header : Head) (lines : ℕ) (w : World) (cluster : Number)
        (domain workflow : Text) → IsWellFormedHeader header → IsReached header lines w
        → IsCluster header cluster
        → EachHasOneCurrent (learned_at header cluster domain workflow w) }
    ensures tips { (header : Head) (lines : ℕ) (w : World) (cluster : Number)
        (domain workflow : Text) → IsWellFormedHeader header → IsReached header lines w
        → IsCluster header cluster
        → TipsDiffer (learned_at header cluster domain workflow w) }
{}

/// The state that a cluster shows of a branch is the replay of all events of the branch, and no origin of a signal
/// stands twice on it.
pub fn states_replay_their_branches()
    ensures states { (header : Head) (lines : ℕ) (w : World) (cluster : Number)
        (domain workflow : Text) → IsWellFormedHeader header → IsReached header lines w
        → IsCluster header cluster
        → StatesAreReplays (learned_at header cluster domain workflow w) }
    ensures origins { (header : Head) (lines : ℕ) (w : World) (cluster : Number)
        (domain workflow : Text) → IsWellFormedHeader header → IsReached header lines w
        → IsCluster header cluster
        → OriginsDiffer (learned_at header cluster domain workflow w) }
{}

/// A batch that has arrived is put off exactly where one of its ancestors has not arrived.
pub fn batches_wait_exactly_while_an_ancestor_is_missing()
    ensures { (header : Head) (lines : ℕ) (w : World) (cluster : Number) (shard : ℕ)
        → IsReached header lines w → IsCluster header cluster → shard < header.shards
        → WaitsForAncestors header (cell_at cluster shard w) w }
{}
