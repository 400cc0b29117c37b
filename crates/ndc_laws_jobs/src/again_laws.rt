// What is sent again, as laws.
ghost use Rattle.std.specs.Prelude.{ℕ, ◌<◌, ◌≡◌, List};
ghost use Rattle.std.specs.List.{IsAmong, flat_map};
ghost use Rattle.ndc_script_types.specs.WellFormed.{IsCluster};
ghost use Rattle.ndc_script_types.specs.declared.script.Header.{Header as Head};
ghost use Rattle.ndc_model.specs.Again.{brought_again, sent_again_of};
ghost use Rattle.ndc_model_cells.specs.Cells.{put_off_in};
ghost use Rattle.ndc_model_cells.specs.Jobs.{workflows_of};
ghost use Rattle.ndc_model_cells.specs.Workflow.{workflow_of};
ghost use Rattle.ndc_domain.specs.declared.clusters.ClusterNo.{ClusterNo as Number};
ghost use Rattle.ndc_event.specs.declared.batch.Batch.{Batch as One};
ghost use Rattle.ndc_model.specs.Facts.{IsReached};
ghost use Rattle.ndc_model.specs.Moves.{sent_again};
ghost use Rattle.ndc_model.specs.Sending.{gap_after};
ghost use Rattle.ndc_model.specs.World.{World, cell_at};
ghost use Rattle.ndc_resend.specs.Gaps.{first_item};
ghost use Rattle.ndc_resend.specs.PutOff.{gap_in};

/// What a reader is sent again for a shard is what it is sent again of each workflow of which something is put off, one
/// workflow after the other.
pub fn what_is_sent_again_goes_by_workflow()
    ensures { (header : Head) (lines : ℕ) (reader : Number) (w : World) (shard : ℕ)
        → IsCluster header reader → IsReached header lines w → shard < header.shards
        → flat_map (λ b. sent_again_of header reader w shard b.domain b.workflow) (workflows_of
        (put_off_in (cell_at reader shard w))) ≡ sent_again header reader w shard }
{}

/// What a reader is brought of a workflow of which something is put off, where it asks the author of each batch that is put
/// off for the gap before it, and its missing ancestor was not brought so far, is what it is sent again of the workflow.
pub fn what_is_brought_is_sent_again()
    ensures { (header : Head) (lines : ℕ) (reader : Number) (w : World) (shard : ℕ) (b : One)
        → IsCluster header reader → IsReached header lines w → shard < header.shards
        → IsAmong (put_off_in (cell_at reader shard w)) b
        → brought_again header reader w shard b.domain b.workflow
        ≡ sent_again_of header reader w shard b.domain b.workflow }
{}

/// The gap before a batch that is put off, as the reader tells it by version histories alone, begins after the last
/// event of the last ancestor in its run that is learned there.
pub fn a_gap_begins_where_what_was_written_has_it()
    ensures { (header : Head) (lines : ℕ) (reader : Number) (w : World) (shard : ℕ) (b : One)
        → IsCluster header reader → IsReached header lines w → shard < header.shards
        → IsAmong (put_off_in (cell_at reader shard w)) b
        → (gap_in (workflow_of b.domain b.workflow (cell_at reader shard w)) b).gap
        ≡ record {
          after = gap_after header shard w
              (cell_at reader shard w) b;
          before = first_item b;
        } }
{}
