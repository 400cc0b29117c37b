// What the definitions give of small worked worlds; the checker computes it.
ghost use Rattle.std.specs.Prelude.{◌≡◌, [], ◌∷◌, codes};
ghost use Rattle.ndc_domain.specs.Clusters.{cluster_no};
ghost use Rattle.ndc_model_sets.specs.Worked.{begun};
ghost use Rattle.ndc_model_cells.specs.Shards.{hash_of, shard_of};
ghost use Rattle.ndc_model_cells.specs.Worked.{first_signal, other_signal, applied_again, alpha};
ghost use Rattle.ndc_model.specs.Moves.{pulled_all, resent, rewound, after_settlement, worked};
ghost use Rattle.ndc_model.specs.World.{cell_at, cluster_at, lane_at};
ghost use Rattle.ndc_model.specs.Worked.{two_clusters, with_a_loss, in_conflict};

/// The shard of a workflow.
#[tactic(auto, unfolding(ndc_model_cells::specs::Shards::shard_of))]
pub fn workflows_live_in_shards()
    ensures hash { hash_of (codes "a") (codes "b") ≡ 284404690 }
    ensures eight { shard_of (codes "a") (codes "b") 8 ≡ 2 }
    ensures sixty_four { shard_of (codes "a") (codes "b") 64 ≡ 18 }
{}

/// A message that was lost holds the level back; it comes again after a rewind, or is sent again.
#[tactic(auto, unfolding(crate::specs::Lines::act_step, crate::specs::Steps::command_step, crate::specs::Steps::reset_step, crate::specs::World::with_table, crate::specs::Moves::pulled_all, crate::specs::Moves::pulled_shard, crate::specs::Moves::renewed, crate::specs::Moves::rewound, crate::specs::Moves::trimmed_all, crate::specs::Moves::jobs_done, crate::specs::Moves::flights_arrived, crate::specs::Moves::reapplied_all, crate::specs::Moves::worked, crate::specs::Moves::resent, crate::specs::Moves::bootstrapped, crate::specs::Moves::due_arrived, crate::specs::Moves::settled_once, crate::specs::Moves::after_settlement, crate::specs::Letters::letters_merged, ndc_model_cells::specs::Shards::shard_of, ndc_model_cells::specs::Writing::may_write, ndc_model_cells::specs::Writing::command_of, ndc_model_cells::specs::Writing::reapplication_of, ndc_model_cells::specs::Writing::reset_at, ndc_model_cells::specs::Arrival::arrival_of, ndc_model_cells::specs::Arrival::arrived_at, ndc_model_cells::specs::Arrival::learned_by, ndc_model_cells::specs::Jobs::after_job, ndc_model_cells::specs::Jobs::outcome_of, ndc_model_cells::specs::Jobs::learned_in, ndc_model_cells::specs::Jobs::cells_after, ndc_model_cells::specs::Jobs::replies_to, ndc_state::specs::Table::row, ndc_reapply::specs::Reapplied::reapplied, ndc_command::specs::Plan::plan_of, ndc_command::specs::Plan::start_of, ndc_command::specs::Plan::plan_below, ndc_command::specs::Plan::written, ndc_command::specs::Plan::judged_at, ndc_command::specs::Plan::within, ndc_command::specs::Stage::refuse, ndc_domain::specs::Members::numbers, ndc_domain::specs::Members::numbers_where))]
pub fn a_lost_message_holds_the_level_back()
    ensures read { (lane_at (cluster_no 1) (cluster_no 0) 0 with_a_loss).levels.read ≡ 2 }
    ensures done { (lane_at (cluster_no 1) (cluster_no 0) 0 with_a_loss).levels.done ≡ 0 }
    ensures again { (lane_at (cluster_no 1) (cluster_no 0) 0
        (worked two_clusters (cluster_no 1)
        (pulled_all (cluster_no 1) (cluster_no 0)
        (rewound (cluster_no 1) (cluster_no 0) with_a_loss))).world).levels.done ≡ 2 }
    ensures sent { (cell_at (cluster_no 1) 0
        (resent two_clusters (cluster_no 1) with_a_loss).world).arrived
        ≡ begun ∷ first_signal ∷ [] }
{}

/// After a settlement both clusters hold the same batches and the same record, and the signal of the branch that
/// lost is applied again.
#[tactic(auto, unfolding(crate::specs::Lines::act_step, crate::specs::Steps::command_step, crate::specs::Steps::reset_step, crate::specs::World::with_table, crate::specs::Moves::pulled_all, crate::specs::Moves::pulled_shard, crate::specs::Moves::renewed, crate::specs::Moves::rewound, crate::specs::Moves::trimmed_all, crate::specs::Moves::jobs_done, crate::specs::Moves::flights_arrived, crate::specs::Moves::reapplied_all, crate::specs::Moves::worked, crate::specs::Moves::resent, crate::specs::Moves::bootstrapped, crate::specs::Moves::due_arrived, crate::specs::Moves::settled_once, crate::specs::Moves::after_settlement, crate::specs::Letters::letters_merged, ndc_model_cells::specs::Shards::shard_of, ndc_model_cells::specs::Writing::may_write, ndc_model_cells::specs::Writing::command_of, ndc_model_cells::specs::Writing::reapplication_of, ndc_model_cells::specs::Writing::reset_at, ndc_model_cells::specs::Arrival::arrival_of, ndc_model_cells::specs::Arrival::arrived_at, ndc_model_cells::specs::Arrival::learned_by, ndc_model_cells::specs::Jobs::after_job, ndc_model_cells::specs::Jobs::outcome_of, ndc_model_cells::specs::Jobs::learned_in, ndc_model_cells::specs::Jobs::cells_after, ndc_model_cells::specs::Jobs::replies_to, ndc_state::specs::Table::row, ndc_reapply::specs::Reapplied::reapplied, ndc_command::specs::Plan::plan_of, ndc_command::specs::Plan::start_of, ndc_command::specs::Plan::plan_below, ndc_command::specs::Plan::written, ndc_command::specs::Plan::judged_at, ndc_command::specs::Plan::within, ndc_command::specs::Stage::refuse, ndc_domain::specs::Members::numbers, ndc_domain::specs::Members::numbers_where))]
pub fn a_settlement_makes_clusters_alike()
    ensures first { (cell_at (cluster_no 0) 0
        (after_settlement two_clusters in_conflict).world).arrived
        ≡ begun ∷ first_signal ∷ other_signal ∷ applied_again ∷ [] }
    ensures second { (cell_at (cluster_no 1) 0
        (after_settlement two_clusters in_conflict).world).arrived
        ≡ begun ∷ first_signal ∷ other_signal ∷ applied_again ∷ [] }
    ensures table { (cluster_at (cluster_no 0)
        (after_settlement two_clusters in_conflict).world).table ≡ alpha 2 ∷ [] }
{}
