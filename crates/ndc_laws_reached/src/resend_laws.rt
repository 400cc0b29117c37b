// Resending in fair worlds, as a law.
ghost use Rattle.std.specs.Prelude.{ℕ, ◌<◌, ◌≡◌, List, []};
ghost use Rattle.ndc_script_types.specs.WellFormed.{IsCluster};
ghost use Rattle.ndc_script_types.specs.declared.script.Header.{Header as Head};
ghost use Rattle.ndc_model_cells.specs.Cells.{put_off_in};
ghost use Rattle.ndc_domain.specs.declared.clusters.ClusterNo.{ClusterNo as Number};
ghost use Rattle.ndc_model.specs.Facts.{IsReached};
ghost use Rattle.ndc_model.specs.Moves.{resent};
ghost use Rattle.ndc_model.specs.World.{World, cell_at};

/// After a resend nothing is put off at the cluster: all that has arrived there is learned.
pub fn behind_a_resend_nothing_is_put_off()
    ensures { (header : Head) (lines : ℕ) (reader : Number) (w : World) (shard : ℕ)
        → IsCluster header reader → IsReached header lines w → shard < header.shards
        → put_off_in (cell_at reader shard (resent header reader w).world) ≡ [] }
{}
