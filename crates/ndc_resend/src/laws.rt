//! Gaps, and what is served for them, as laws: a law is what an empty function ensures.
ghost use Rattle.std.specs.Prelude.{◌≡◌, ◌≢◌, List, [], ◌∷◌, ◌++◌, Option as Maybe, None, Some, IsSome};
ghost use Rattle.std.specs.List.{IsAmong, filter};
ghost use Rattle.ndc_event.specs.declared.batch.Batch.{Batch};
ghost use Rattle.ndc_history.specs.declared.item.Item.{Item};
ghost use Rattle.ndc_history.specs.Common.{item_or_zero};
ghost use Rattle.ndc_model_cells.specs.declared.message.Message.{Message};
ghost use Rattle.ndc_model_cells.specs.Workflow.{WorkflowValue};
ghost use Rattle.ndc_model_sets.specs.Branches.{histories};
ghost use Rattle.ndc_model_sets.specs.Learned.{IsClosed, IsPart, WaitsFor, has_key, learned};
ghost use Rattle.ndc_model_sets.specs.Paths.{events_to, first_id, last_item_of, path_to, versions_of};
ghost use Rattle.ndc_model_sets.specs.Sets.{Has, IsSet, batch_at};
ghost use Rattle.ndc_model_sets.specs.Sound.{IsSound};
ghost use Rattle.ndc_event.specs.declared.key.BatchKey.{BatchKey as Key};
ghost use Rattle.ndc_resend.specs.declared.asking.GapOf.{GapOf};
ghost use Rattle.ndc_resend.specs.declared.serving.Gap.{Gap as Asked};
ghost use Rattle.ndc_resend.specs.Asked.{HasLearned, IsPutOffIn};
ghost use Rattle.ndc_resend.specs.Bringing.{IsBehindIn, brought_to};
ghost use Rattle.ndc_resend.specs.Gaps.{first_item, gap_of, served};
ghost use Rattle.ndc_resend.specs.PutOff.{gap_in, off_in};
ghost use Rattle.ndc_resend.specs.Serving.{answered, with_carriers};
ghost use Rattle.ndc_state.specs.Replay.{history_of};

/// Of a batch of a sound set whose path begins with learned batches and goes on with others, the gap begins after the
/// last event of the last learned batch of the path; after id 0 and version 0, where none is learned.
pub fn a_gap_begins_behind_the_last_learned_ancestor()
    ensures { (batches part : List Batch) (b : Batch) (front rest : List Batch) (first : Item)
        → IsSound batches → IsSet part → IsClosed part → IsPart part batches → Has batches b
        → path_to b.key batches ≡ front ++ rest → IsPart front part
        → ((c : Batch) → Has rest c → batch_at c.key part ≡ None)
        → gap_of (histories b.run part) (versions_of (events_to b.key batches)) first
        ≡ record { after = item_or_zero (last_item_of (history_of front)); before = first } }
{}

/// On the path to a batch of a sound set, what is served of the gap between its first batches and the batch itself is
/// exactly what lies between these.
#[tactic(auto, using(crate::proofs::ServeLemmas::served_is_between))]
pub fn what_lies_between_is_served()
    ensures { (batches : List Batch) (b : Batch) (front middle : List Batch) → IsSound batches
        → Has batches b
        → path_to b.key batches ≡ front ++ (middle ++ b ∷ [])
        → served (record {
          after = item_or_zero (last_item_of (history_of front));
          before = record { id = first_id b.events; version = b.key.version };
        }) (path_to b.key
        batches) ≡ middle }
{}

/// What a cell answers for a gap is what is served of the whole path to the batch that was asked for, after those by which
/// carriers lead to the first batch of that: of the path it is enough to look at its end that begins after the gap's
/// first end.
#[tactic(auto, using(crate::proofs::ServeLemmas::answered_of_the_path))]
pub fn what_is_answered_is_served_of_the_whole_path()
    ensures { (all : List Batch) (gap : Asked) (key : Key) → IsSound all
        → answered all gap key ≡ with_carriers all (served gap (path_to key all)) }
{}

/// The gap before a batch that a cell has put off begins after the last event that is learned of its path; after id 0
/// and version 0, where none is.
pub fn a_gap_begins_behind_what_is_learned()
    ensures { (all : List Batch) (author : Batch → List Batch) (own : Batch → Maybe Message)
        (answer : GapOf → List Message) (w : WorkflowValue) (b : Batch)
        → IsBehindIn all author own answer w → Has (off_in w) b
        → (gap_in w b).gap ≡ record {
          after = item_or_zero
              (last_item_of (history_of
              (filter (λ c. has_key (Some c.key) (learned w.arrived)) (path_to b.key all))));
          before =
              first_item b;
        } }
{}

/// What another cell answers for it is what lies between on the path, after those by which carriers lead to the first
/// batch of that.
pub fn what_is_not_learned_of_the_path_is_served()
    ensures { (all mine : List Batch) (w : WorkflowValue) (b : Batch) (front middle : List Batch)
        → IsPutOffIn all w b front middle → HasLearned all mine b
        → answered mine (gap_in w b).gap b.key ≡ with_carriers mine middle }
{}

/// Each ancestor of a batch with a parent that is not learned where the batch is put off is among what is answered.
pub fn each_ancestor_that_is_not_learned_is_served()
    ensures { (all mine : List Batch) (w : WorkflowValue) (b x : Batch) (front middle : List Batch)
        → IsPutOffIn all w b front middle → HasLearned all mine b → IsSome b.parent
        → WaitsFor all x b → x ≢ b → batch_at x.key (learned w.arrived) ≡ None
        → IsAmong (answered mine (gap_in w b).gap b.key) x }
{}

/// Nothing but ancestors of the batch is answered.
pub fn only_ancestors_are_served()
    ensures { (all mine : List Batch) (w : WorkflowValue) (b x : Batch) (front middle : List Batch)
        → IsPutOffIn all w b front middle → HasLearned all mine b
        → IsAmong (answered mine (gap_in w b).gap b.key) x → WaitsFor all x b }
{}

/// Where a cell asks, from the last to the first, for each batch that is put off and whose missing ancestor no message so far
/// has brought,
/// the message of each ancestor of what is put off that has not arrived is brought.
pub fn each_missing_ancestor_is_brought()
    ensures { (all : List Batch) (author : Batch → List Batch) (own : Batch → Maybe Message)
        (answer : GapOf → List Message) (w : WorkflowValue) (b x : Batch) (sent : Message)
        → IsBehindIn all author own answer w → Has (off_in w) b → WaitsFor all x b
        → batch_at x.key w.arrived ≡ None → own x ≡ Some sent
        → IsAmong (brought_to answer w) sent }
{}

/// And nothing is brought but messages of ancestors of what is put off.
pub fn only_ancestors_are_brought()
    ensures { (all : List Batch) (author : Batch → List Batch) (own : Batch → Maybe Message)
        (answer : GapOf → List Message) (w : WorkflowValue) (sent : Message)
        → IsBehindIn all author own answer w → IsAmong (brought_to answer w) sent → (b x : Batch)
        × Has (off_in w) b × WaitsFor all x b × (own x ≡ Some sent) }
{}
