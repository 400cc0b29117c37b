// Lanes in fair worlds, as laws.
ghost use Rattle.std.specs.Prelude.{ℕ};
ghost use Rattle.ndc_script_types.specs.declared.script.Header.{Header as Head};
ghost use Rattle.ndc_domain.specs.declared.clusters.ClusterNo.{ClusterNo as Number};
ghost use Rattle.ndc_laws_reached.specs.Laws.{LevelsAreTrue};
ghost use Rattle.ndc_model.specs.Facts.{IsReached};
ghost use Rattle.ndc_model.specs.Moves.{pulled_all, pulled_shard, renewed, rewound, trimmed_all, without_flights};
ghost use Rattle.ndc_model.specs.Sending.{lose_step, move_step, repeat_step};
ghost use Rattle.ndc_model.specs.World.{World};

/// A pull, of all or of so many entries, keeps a world as it should be.
pub fn pulls_keep_worlds_reached()
    ensures all { (header : Head) (lines : ℕ) (reader source : Number) (w : World)
        → IsReached header lines w → IsReached header lines (pulled_all reader source w) }
    ensures some { (header : Head) (lines : ℕ) (reader source : Number) (shard count : ℕ)
        (w : World) → IsReached header lines w
        → IsReached header lines (pulled_shard reader source shard count w) }
{}

/// Renewing a reader's levels, reading again what is not done, and trimming the queues of a source keep a world as
/// it should be.
pub fn changes_of_levels_keep_worlds_reached()
    ensures renewed { (header : Head) (lines : ℕ) (reader : Number) (w : World)
        → IsReached header lines w → IsReached header lines (renewed w reader) }
    ensures rewound { (header : Head) (lines : ℕ) (reader source : Number) (w : World)
        → IsReached header lines w → IsReached header lines (rewound reader source w) }
    ensures trimmed { (header : Head) (lines : ℕ) (source : Number) (w : World)
        → IsReached header lines w → IsReached header lines (trimmed_all header source w) }
{}

/// Messages in flight may be lost, repeated, moved, or all be dropped: the world stays as it should be.
pub fn faults_of_the_network_keep_worlds_reached()
    ensures lost { (header : Head) (lines : ℕ) (reader source : Number) (shard place : ℕ)
        (w : World) → IsReached header lines w
        → IsReached header lines (lose_step reader source shard place w).world }
    ensures repeated { (header : Head) (lines : ℕ) (reader source : Number) (shard place : ℕ)
        (w : World) → IsReached header lines w
        → IsReached header lines (repeat_step reader source shard place w).world }
    ensures moved { (header : Head) (lines : ℕ) (reader source : Number) (shard place to : ℕ)
        (w : World) → IsReached header lines w
        → IsReached header lines (move_step reader source shard place to w).world }
    ensures dropped { (header : Head) (lines : ℕ) (w : World) → IsReached header lines w
        → IsReached header lines (without_flights w) }
{}

/// In each lane what is trimmed is done, what is done was read, and what was read is in the queue.
#[tactic(auto, using(crate::proofs::LaneLaws::levels_true))]
pub fn levels_are_in_turn()
    ensures { (header : Head) (lines : ℕ) (w : World) → IsReached header lines w
        → LevelsAreTrue header w }
{}
