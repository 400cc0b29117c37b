// Cells that do their jobs each by itself, as laws.
ghost use Rattle.std.specs.Prelude.{◌≡◌, ℕ, ◌<◌, List, length, map, Some};
ghost use Rattle.std.specs.List.{AllByRecursion};
ghost use Rattle.ndc_model_cells.specs.Cells.{Cell};
ghost use Rattle.ndc_model_cells.specs.Jobs.{cell_for, cells_after, replies_to};
ghost use Rattle.ndc_model_cells.specs.Writing.{Desk};
ghost use Rattle.ndc_model_cells.specs.declared.job.ShardJob.{ShardJob as Asked};
ghost use Rattle.ndc_cluster.specs.Rounds.{SlotValue, cell_after, dealt, fresh_slot, jobs_of, slot_done, taken};

/// The cell of a shard after jobs that are done one after the other is that after its own jobs alone.
#[tactic(auto, using(crate::proofs::ShardLemmas::cell_by_itself))]
pub fn cells_work_by_themselves()
    ensures { (home : Desk) (jobs : List Asked) (cells : List Cell) (shard : ℕ)
        → shard < length cells → cell_for shard (cells_after home jobs cells)
        ≡ cell_after home (jobs_of shard jobs) (cell_for shard cells) }
{}

/// Where each job goes to the slot of its shard, and each slot does its own jobs, the cells and the replies in order of
/// the jobs are those of the jobs done one after the other.
pub fn dealt_jobs_are_done_in_order()
    ensures cells { (home : Desk) (jobs : List Asked) (cells : List Cell)
        → map (λ (s : SlotValue). s.cell) (map (slot_done home) (dealt jobs (map fresh_slot cells)))
        ≡ cells_after home jobs cells }
    ensures replies { (home : Desk) (jobs : List Asked) (cells : List Cell)
        → AllByRecursion (λ asked. asked.shard < length cells) jobs
        → taken jobs (map (λ (s : SlotValue).
        s.replies) (map (slot_done home) (dealt jobs (map fresh_slot cells))))
        ≡ Some (replies_to home jobs cells) }
{}
