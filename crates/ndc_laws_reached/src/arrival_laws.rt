// Arrivals in fair worlds, as laws.
ghost use Rattle.std.specs.Prelude.{ℕ, ◌<◌};
ghost use Rattle.ndc_script_types.specs.WellFormed.{AreTwoClusters, IsCluster};
ghost use Rattle.ndc_script_types.specs.declared.script.Header.{Header as Head};
ghost use Rattle.ndc_domain.specs.declared.clusters.ClusterNo.{ClusterNo as Number};
ghost use Rattle.ndc_model.specs.Facts.{IsReached};
ghost use Rattle.ndc_model.specs.Letters.{damage_step, letters_merged, purge_step};
ghost use Rattle.ndc_model.specs.Moves.{Trace, bootstrapped, due_arrived, flights_arrived, resent};
ghost use Rattle.ndc_model.specs.World.{World};

/// All that is in flight to a cluster may arrive, and all entries that are due to it: the world stays as it should
/// be.
pub fn arrivals_keep_worlds_reached()
    ensures flights { (header : Head) (lines : ℕ) (reader : Number) (w : World)
        → IsCluster header reader → IsReached header lines w
        → IsReached header lines (flights_arrived header reader w).world }
    ensures due { (header : Head) (lines : ℕ) (reader : Number) (t : Trace)
        → IsCluster header reader → IsReached header lines t.world
        → IsReached header lines (due_arrived header t reader).world }
{}

/// The ancestors of what is put off may be sent again: the world stays as it should be.
pub fn resending_keeps_worlds_reached()
    ensures { (header : Head) (lines : ℕ) (reader : Number) (w : World) → IsCluster header reader
        → IsReached header lines w → IsReached header lines (resent header reader w).world }
{}

/// A member that is late may take what it lacks from a source, after which it is late no more: the world stays as
/// it should be.
pub fn bootstraps_keep_worlds_reached()
    ensures { (header : Head) (lines : ℕ) (reader source : Number) (t : Trace)
        → AreTwoClusters header reader source → IsReached header lines t.world
        → IsReached header lines (bootstrapped header reader t source).world }
{}

/// A message that comes damaged is set aside, letters are dropped, or their messages arrive from their sources: the
/// world stays as it should be.
pub fn letters_keep_worlds_reached()
    ensures damaged { (header : Head) (lines : ℕ) (reader source : Number) (shard place cut : ℕ)
        (w : World) → AreTwoClusters header reader source → shard < header.shards
        → IsReached header lines w
        → IsReached header lines (damage_step reader source shard place cut w).world }
    ensures merged { (header : Head) (lines : ℕ) (reader : Number) (w : World)
        → IsCluster header reader → 0 < header.shards → IsReached header lines w
        → IsReached header lines (letters_merged header reader w).world }
    ensures purged { (header : Head) (lines : ℕ) (reader : Number) (w : World)
        → IsCluster header reader → IsReached header lines w
        → IsReached header lines (purge_step reader w).world }
{}
