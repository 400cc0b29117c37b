// Messages in fair worlds may arrive, as laws.
ghost use Rattle.std.specs.Prelude.{ℕ, ◌<◌};
ghost use Rattle.ndc_script_types.specs.WellFormed.{AreTwoClusters, IsCluster};
ghost use Rattle.ndc_script_types.specs.declared.script.Header.{Header as Head};
ghost use Rattle.ndc_model_cells.specs.declared.message.Message.{Message as Sent};
ghost use Rattle.ndc_domain.specs.declared.clusters.ClusterNo.{ClusterNo as Number};
ghost use Rattle.ndc_model.specs.Allowed.{letter_jobs};
ghost use Rattle.ndc_model.specs.Facts.{IsReached};
ghost use Rattle.ndc_model.specs.Fair.{IsMessageTrue};
ghost use Rattle.ndc_model.specs.World.{World, cell_at};
ghost use Rattle.ndc_model.specs.Conditions.{MayDoAll, again_jobs, due_jobs, flight_jobs, late_jobs};
ghost use Rattle.ndc_model_cells.specs.Allowed.{IsAllowed, MayArrive};

/// A message of what was written may arrive at each cluster, in the shard where its workflow lives.
pub fn a_message_of_what_was_written_may_arrive()
    ensures { (header : Head) (lines : ℕ) (w : World) (cluster : Number) (shard : ℕ) (sent : Sent)
        → IsCluster header cluster → shard < header.shards → IsReached header lines w
        → IsMessageTrue header shard w sent → MayArrive sent (cell_at cluster shard w) }
{}

/// All that is in flight to a cluster may arrive, one message after the other, and all entries that are due to it.
pub fn what_is_in_flight_or_due_may_arrive()
    ensures flights { (header : Head) (lines : ℕ) (reader : Number) (w : World)
        → IsCluster header reader → IsReached header lines w
        → MayDoAll IsAllowed header reader (flight_jobs header reader w) w }
    ensures due { (header : Head) (lines : ℕ) (reader : Number) (w : World)
        → IsCluster header reader → IsReached header lines w
        → MayDoAll IsAllowed header reader (due_jobs header reader w) w }
{}

/// The ancestors of what is put off may arrive, what a late member lacks of a source, and the messages of letters.
pub fn what_is_sent_again_may_arrive()
    ensures resent { (header : Head) (lines : ℕ) (reader : Number) (w : World)
        → IsCluster header reader → IsReached header lines w
        → MayDoAll IsAllowed header reader (again_jobs header reader w) w }
    ensures late { (header : Head) (lines : ℕ) (reader source : Number) (w : World)
        → AreTwoClusters header reader source → IsReached header lines w
        → MayDoAll IsAllowed header reader (late_jobs header reader source w) w }
    ensures letters { (header : Head) (lines : ℕ) (reader : Number) (w : World)
        → IsCluster header reader → 0 < header.shards → IsReached header lines w
        → MayDoAll IsAllowed header reader (letter_jobs header reader w) w }
{}
