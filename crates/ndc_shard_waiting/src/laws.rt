//! What becomes learned, and what waits on, when a message arrives in a workflow, as laws: a law is what an empty
//! function ensures.
ghost use Rattle.std.specs.Prelude.{◌≡◌, List, [], ◌∷◌, true, false, not, map, unwrap_or, Some};
ghost use Rattle.std.specs.List.{AllByRecursion, filter};
ghost use Rattle.ndc_model_cells.specs.Arrival.{arrival_in, message_placed, newly_learned};
ghost use Rattle.ndc_model_cells.specs.Cells.{both, missing_of};
ghost use Rattle.ndc_model_cells.specs.Places.{is_of, AreInOrder};
ghost use Rattle.ndc_model_cells.specs.declared.job.Arrived.TheVariants.{Learned, PutOff};
ghost use Rattle.ndc_model_cells.specs.declared.message.Message.{Message as Sent};
ghost use Rattle.ndc_event.specs.declared.batch.Batch.{Batch as One};
ghost use Rattle.ndc_event.specs.declared.name.Name.{Name as Text};
ghost use Rattle.ndc_model_sets.specs.Learned.{has_key, learned};
ghost use Rattle.ndc_model_sets.specs.Sets.{earlier, Has, IsSet};
ghost use Rattle.ndc_shard_waiting.specs.Learning.{with_message, with_messages, ArePutOff, AreLearnable};
ghost use Rattle.ndc_model_cells.specs.Messages.{batches_of, IsMessage, IsNewTo, waits_for};
ghost use Rattle.ndc_shard_waiting.specs.Waiting.{put_off, CanWait, freed, still_put_off, missing_from};

/// Of all that has arrived, what is not put off is learned; and of the messages that are put off none is learned.
#[tactic(auto, using(crate::proofs::LearnLemmas::learned_is, crate::proofs::FreeLemmas::none_learned))]
pub fn what_is_not_put_off_is_learned()
    ensures learned { (known : List One) (waiting : List Sent) → ArePutOff known waiting
        → learned (with_messages waiting known) ≡ known }
    ensures waits { (known : List One) (waiting : List Sent) → ArePutOff known waiting
        → filter (λ sent. not (has_key (Some sent.batch.key) known)) waiting ≡ waiting }
{}

/// A message whose earlier key is not learned is put off with the others; nothing becomes learned.
pub fn an_arrival_is_put_off()
    ensures put_off { (known : List One) (waiting : List Sent) (new : Sent)
        → ArePutOff known waiting → CanWait new → IsNewTo known new
        → IsNewTo (batches_of waiting) new
        → has_key (earlier new.batch) known ≡ false → ArePutOff known (put_off new waiting) }
    ensures arrived { (known : List One) (waiting : List Sent) (new : Sent)
        → ArePutOff known waiting → CanWait new → IsNewTo known new
        → IsNewTo (batches_of waiting) new
        → has_key (earlier new.batch) known ≡ false → with_message new (with_messages waiting known)
        ≡ with_messages (put_off new waiting) known }
    ensures learned { (known : List One) (waiting : List Sent) (new : Sent)
        → ArePutOff known waiting → CanWait new → IsNewTo known new
        → IsNewTo (batches_of waiting) new
        → has_key (earlier new.batch) known ≡ false
        → newly_learned (learned (with_messages waiting known)) (learned
        (with_message new (with_messages waiting known))) ≡ [] }
    ensures answer { (known : List One) (waiting : List Sent) (new : Sent) → ArePutOff known waiting
        → CanWait new → IsNewTo known new → IsNewTo (batches_of waiting) new
        → has_key (earlier new.batch) known ≡ false
        → arrival_in new (newly_learned (learned (with_messages waiting known))
        (learned (with_message new (with_messages waiting known)))) (with_message new
        (with_messages waiting known))
        ≡ PutOff (unwrap_or (missing_from (Some new.batch.key)
        (batches_of (put_off new waiting))) new.batch.key) }
{}

/// A message whose earlier key is learned, or that has none, is learned with all messages that wait for it, directly
/// or not; the others stay put off.
pub fn an_arrival_frees_what_waits_for_it()
    ensures put_off { (known : List One) (waiting : List Sent) (new : Sent)
        → ArePutOff known waiting → IsMessage new → IsNewTo known new
        → IsNewTo (batches_of waiting) new
        → has_key (earlier new.batch) known ≡ true
        → ArePutOff (with_messages (freed new waiting) known) (still_put_off new waiting) }
    ensures arrived { (known : List One) (waiting : List Sent) (new : Sent)
        → ArePutOff known waiting → IsMessage new → IsNewTo known new
        → IsNewTo (batches_of waiting) new
        → has_key (earlier new.batch) known ≡ true
        → with_message new (with_messages waiting known)
        ≡ with_messages (still_put_off new waiting) (with_messages (freed new waiting) known) }
    ensures learned { (known : List One) (waiting : List Sent) (new : Sent)
        → ArePutOff known waiting → IsMessage new → IsNewTo known new
        → IsNewTo (batches_of waiting) new
        → has_key (earlier new.batch) known ≡ true
        → newly_learned (learned (with_messages waiting known)) (learned
        (with_message new (with_messages waiting known))) ≡ batches_of (freed new waiting) }
    ensures answer { (known : List One) (waiting : List Sent) (new : Sent) → ArePutOff known waiting
        → IsMessage new → IsNewTo known new → IsNewTo (batches_of waiting) new
        → has_key (earlier new.batch) known ≡ true
        → arrival_in new (newly_learned (learned (with_messages waiting known))
        (learned (with_message new (with_messages waiting known)))) (with_message new
        (with_messages waiting known))
        ≡ Learned (map (λ b. b.key) (batches_of (freed new waiting))) }
    ensures waits { (known : List One) (waiting : List Sent) (new : Sent) → ArePutOff known waiting
        → IsMessage new → IsNewTo known new → IsNewTo (batches_of waiting) new
        → has_key (earlier new.batch) known ≡ true
        → filter (λ sent. not (has_key (Some sent.batch.key)
        (with_messages (freed new waiting) known))) (put_off new waiting)
        ≡ still_put_off new waiting }
{}

/// A message for which none waits frees none.
#[tactic(auto, using(crate::proofs::LawLemmas::frees_none, crate::proofs::LawLemmas::none_goes))]
pub fn what_none_waits_for_frees_none()
    ensures freed { (waiting : List Sent) (new : Sent)
        → AllByRecursion (λ sent. waits_for (both new) sent ≡ false) waiting
        → freed new waiting ≡ new ∷ [] }
    ensures rest { (waiting : List Sent) (new : Sent)
        → AllByRecursion (λ sent. waits_for (both new) sent ≡ false) waiting
        → still_put_off new waiting ≡ waiting }
{}

/// Where a message frees others, all of them are messages as cells write them, their batches are a set in this order,
/// and they can be learned in this order: each batch's earlier key is there before it.
pub fn what_is_freed_can_be_learned_in_order()
    ensures messages { (known : List One) (waiting : List Sent) (new : Sent)
        → ArePutOff known waiting → IsMessage new → AllByRecursion IsMessage (freed new waiting) }
    ensures set { (known : List One) (waiting : List Sent) (new : Sent) → ArePutOff known waiting
        → IsMessage new → IsNewTo known new → IsNewTo (batches_of waiting) new
        → has_key (earlier new.batch) known ≡ true → IsSet (batches_of (freed new waiting)) }
    ensures order { (known : List One) (waiting : List Sent) (new : Sent) → ArePutOff known waiting
        → IsMessage new → IsNewTo known new → IsNewTo (batches_of waiting) new
        → has_key (earlier new.batch) known ≡ true → AreLearnable known (freed new waiting) }
{}

/// Where a message goes to its place among those of all workflows, it goes to its place by key among those of its own.
#[tactic(auto, using(crate::proofs::PlacedLemmas::placed_by_key))]
pub fn a_message_goes_to_its_place_in_its_workflow()
    ensures { (domain workflow : Text) (new : Sent) → is_of domain workflow new.batch ≡ true
        → (messages : List Sent) → AreInOrder (map (λ m. m.batch) messages)
        → filter (λ m. is_of domain workflow m.batch) (message_placed new messages)
        ≡ put_off new (filter (λ m. is_of domain workflow m.batch) messages) }
{}

/// The nearest ancestor of a put-off batch that has not arrived is found among what waits.
#[tactic(auto, using(crate::proofs::MissingLemmas::missing_is))]
pub fn what_is_missing_is_found_among_what_waits()
    ensures { (known : List One) (waiting : List Sent) (b : One) → ArePutOff known waiting
        → Has (batches_of waiting) b
        → missing_of b (with_messages waiting known)
        ≡ missing_from (Some b.key) (batches_of waiting) }
{}
