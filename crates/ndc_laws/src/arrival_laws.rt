// What messages are answered that arrive, as a law.
ghost use Rattle.std.specs.Prelude.{◌≡◌, ◌↔◌, ℕ, ◌<◌, true, false, List};
ghost use Rattle.ndc_script_types.specs.WellFormed.{IsCluster};
ghost use Rattle.ndc_script_types.specs.declared.script.Header.{Header as Head};
ghost use Rattle.ndc_model_cells.specs.declared.job.Arrived.TheVariants.{Known, PutOff};
ghost use Rattle.ndc_model_cells.specs.declared.message.Message.{Message as Sent};
ghost use Rattle.ndc_model_cells.specs.Arrival.{arrival_of, arrived_at, has_arrived};
ghost use Rattle.ndc_model_cells.specs.Cells.{Cell, IsCell, arrived_of};
ghost use Rattle.ndc_model_cells.specs.Keeping.{IsKept, IsMessageOf};
ghost use Rattle.ndc_domain.specs.declared.clusters.ClusterNo.{ClusterNo as Number};
ghost use Rattle.ndc_event.specs.declared.batch.Batch.{Batch};
ghost use Rattle.ndc_event.specs.declared.key.BatchKey.{BatchKey};
ghost use Rattle.ndc_laws.specs.Promised.{FirstMissing, LacksAncestor, LacksAncestorAmong};
ghost use Rattle.ndc_model.specs.Facts.{IsReached};
ghost use Rattle.ndc_model.specs.Fair.{IsMessageTrue, is_named};
ghost use Rattle.ndc_model.specs.World.{World, cell_at};

/// A message is known exactly where its batch has arrived before. A message of what was written, to a cluster that some
/// record of its domain names, is put off exactly where its batch is new and, once it has arrived, lacks an ancestor; what
/// is told then is the first key on the way up from the batch that has not arrived.
pub fn a_message_is_put_off_exactly_where_an_ancestor_is_missing()
    ensures known { (sent : Sent) (cell : Cell) → (arrival_of sent cell ≡ Known)
        ↔ (has_arrived sent.batch cell ≡ true) }
    ensures put_off { (header : Head) (lines : ℕ) (w : World) (cluster : Number) (shard : ℕ)
        (sent : Sent) → IsReached header lines w → IsCluster header cluster → shard < header.shards
        → IsMessageTrue header shard w sent → is_named header cluster w sent.batch.domain ≡ true
        → ((key : BatchKey) × (arrival_of sent (cell_at cluster shard w) ≡ PutOff key))
        ↔ ((has_arrived sent.batch (cell_at cluster shard w) ≡ false)
        × LacksAncestor header (arrived_at sent (cell_at cluster shard w)) sent.batch w) }
    ensures missing { (header : Head) (lines : ℕ) (w : World) (cluster : Number) (shard : ℕ)
        (sent : Sent) (key : BatchKey) → IsReached header lines w → IsCluster header cluster
        → shard < header.shards
        → IsMessageTrue header shard w sent → is_named header cluster w sent.batch.domain ≡ true
        → arrival_of sent (cell_at cluster shard w) ≡ PutOff key
        → FirstMissing (arrived_of sent.batch.domain sent.batch.workflow
        (arrived_at sent (cell_at cluster shard w))) key sent.batch }
{}

/// The same of one cell, for which its caller keeps a sound set of the batches of the workflow that holds all that has arrived
/// of it there. A message of the set is put off exactly where its batch is new and, once it has arrived, lacks an ancestor
/// among the set; what is told then is the first key on the way up from the batch that has not arrived.
pub fn a_cell_puts_off_exactly_where_an_ancestor_is_missing()
    ensures put_off { (all : List Batch) (sent : Sent) (cell : Cell) → IsCell cell
        → IsKept all sent.batch.domain sent.batch.workflow cell → IsMessageOf all sent
        → ((key : BatchKey) × (arrival_of sent cell ≡ PutOff key))
        ↔ ((has_arrived sent.batch cell ≡ false)
        × LacksAncestorAmong all (arrived_at sent cell) sent.batch) }
    ensures missing { (all : List Batch) (sent : Sent) (cell : Cell) (key : BatchKey) → IsCell cell
        → IsKept all sent.batch.domain sent.batch.workflow cell → IsMessageOf all sent
        → arrival_of sent cell ≡ PutOff key
        → FirstMissing (arrived_of sent.batch.domain sent.batch.workflow
        (arrived_at sent cell)) key sent.batch }
{}
