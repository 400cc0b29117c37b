// What authors have learned, as laws.
ghost use Rattle.std.specs.Prelude.{ℕ, ◌<◌};
ghost use Rattle.std.specs.List.{IsAmong};
ghost use Rattle.ndc_domain.specs.Clusters.{writer_of};
ghost use Rattle.ndc_event.specs.declared.batch.Batch.{Batch as One};
ghost use Rattle.ndc_script_types.specs.declared.script.Header.{Header as Head};
ghost use Rattle.ndc_model.specs.Again.{cell_by};
ghost use Rattle.ndc_model_cells.specs.Cells.{learned_of};
ghost use Rattle.ndc_model.specs.Facts.{IsReached};
ghost use Rattle.ndc_model.specs.Moves.{all_written};
ghost use Rattle.ndc_model.specs.World.{World};
ghost use Rattle.ndc_model_sets.specs.Sets.{Has};

/// The author of each batch that was written, the cluster that writes with its version, has learned it.
pub fn authors_have_learned_what_was_written()
    ensures { (header : Head) (lines : ℕ) (w : World) (shard : ℕ) (b : One)
        → IsReached header lines w → shard < header.shards → IsAmong (all_written header shard w) b
        → Has (learned_of b.domain b.workflow
        (cell_by shard w (writer_of header.clusters b.key.version))) b }
{}
