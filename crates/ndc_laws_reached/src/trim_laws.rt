// What queues have trimmed in fair worlds, as laws.
ghost use Rattle.std.specs.List.{AllByRecursion};
ghost use Rattle.std.specs.Prelude.{ℕ, ◌<◌};
ghost use Rattle.ndc_script_types.specs.WellFormed.{AreTwoClusters};
ghost use Rattle.ndc_script_types.specs.declared.script.Header.{Header as Head};
ghost use Rattle.ndc_domain.specs.declared.clusters.ClusterNo.{ClusterNo as Number};
ghost use Rattle.ndc_laws_reached.specs.Trimmed.{IsLearnedOrLate, IsLearnedWhereAddressed, trimmed_of};
ghost use Rattle.ndc_model.specs.Facts.{IsReached};
ghost use Rattle.ndc_model.specs.Moves.{Trace, bootstrapped};
ghost use Rattle.ndc_model.specs.World.{World};

/// Each message that a source has trimmed and that is addressed to a reader is learned by the reader, or of a domain
/// in which the reader is late.
pub fn what_is_trimmed_is_learned_or_late()
    ensures { (header : Head) (lines : ℕ) (w : World) (reader source : Number) (shard : ℕ)
        → IsReached header lines w → AreTwoClusters header reader source → shard < header.shards
        → AllByRecursion (IsLearnedOrLate reader source shard w) (trimmed_of source shard w) }
{}

/// After a bootstrap from a source the reader has learned each message that the source has trimmed and that is
/// addressed to the reader.
pub fn behind_a_bootstrap_what_is_trimmed_is_learned()
    ensures { (header : Head) (lines : ℕ) (t : Trace) (reader source : Number) (shard : ℕ)
        → IsReached header lines t.world → AreTwoClusters header reader source
        → shard < header.shards
        → AllByRecursion (IsLearnedWhereAddressed reader source shard
        (bootstrapped header reader t source).world) (trimmed_of source shard
        (bootstrapped header reader t source).world) }
{}
