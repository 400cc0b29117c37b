ghost use Rattle.std.specs.Prelude.{◌≡◌, ◌≤◌, ℕ, List, Some, drop, take};
ghost use Rattle.ndc_model_cells.specs.declared.message.Message.{Message};
ghost use Rattle.ndc_queue.specs.Lists.{entries_from, first_from, kept_from};

/// What is kept of a queue is the queue from the number of dropped entries on, also when it is trimmed.
#[tactic(auto, using(crate::proofs::ListLemmas::kept_is_the_rest))]
pub fn what_is_kept_is_the_rest_of_the_queue()
    ensures { (first level : ℕ) (queue : List Message) → kept_from first level (drop first queue)
        ≡ drop (first_from first level) queue }
{}

/// The kept entries from a level on are those of the queue.
#[tactic(auto, using(crate::proofs::ListLemmas::entries_of_the_rest))]
pub fn entries_are_those_of_the_queue()
    ensures { (first level count : ℕ) (queue : List Message) → first ≤ level
        → take count (kept_from first level (drop first queue))
        ≡ entries_from (Some count) level queue }
{}
