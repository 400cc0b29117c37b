// Levels, as laws.
ghost use Rattle.std.specs.Prelude.{ℕ, List, Option};
ghost use Rattle.ndc_domain.specs.declared.clusters.ClusterNo.{ClusterNo as Number};
ghost use Rattle.ndc_domain.specs.declared.record.DomainRecord.{DomainRecord as Record};
ghost use Rattle.ndc_model_cells.specs.declared.message.Message.{Message};
ghost use Rattle.ndc_model_cells.specs.Cells.{Cell};
ghost use Rattle.ndc_model.specs.Queues.{Lane, after_pull, after_renewal, after_rewind};
ghost use Rattle.ndc_queue.specs.Levels.{AreLevels};

/// What is done was read, and what was read is in the queue: pulling, renewing and rewinding keep it so.
#[tactic(auto, using(crate::proofs::LevelLemmas::pull_keeps, crate::proofs::LevelLemmas::renewal_keeps, crate::proofs::LevelLemmas::rewind_keeps))]
pub fn levels_stay_in_order()
    ensures pull { (reader : Number) (table : List Record) (count : Option ℕ) (queue : List Message)
        (lane : Lane)
        → AreLevels queue lane.levels
        → AreLevels queue (after_pull reader table count queue lane).levels }
    ensures renewal { (reader : Number) (table : List Record) (cell : Cell) (queue : List Message)
        (lane : Lane)
        → AreLevels queue lane.levels
        → AreLevels queue (after_renewal reader table cell queue lane).levels }
    ensures rewind { (queue : List Message) (lane : Lane) → AreLevels queue lane.levels
        → AreLevels queue (after_rewind lane).levels }
{}
