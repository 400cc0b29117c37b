// Cells, as laws.
ghost use Rattle.std.specs.Prelude.{◌≡◌, List, true, false, IfSome};
ghost use Rattle.ndc_event.specs.declared.batch.Batch.{Batch as One};
ghost use Rattle.ndc_event.specs.declared.name.Name.{Name as Text};
ghost use Rattle.ndc_model_sets.specs.Learned.{IsPart};
ghost use Rattle.ndc_model_sets.specs.Sets.{PointsBack, IsSet, arrived};
ghost use Rattle.ndc_model_sets.specs.Sound.{IsSound};
ghost use Rattle.ndc_model_cells.specs.declared.message.Message.{Message as Sent};
ghost use Rattle.ndc_model_cells.specs.Arrival.{arrived_at};
ghost use Rattle.ndc_model_cells.specs.Cells.{Cell, IsCell, arrived_of, learned_of};
ghost use Rattle.ndc_model_cells.specs.Laws.{IsFoundAmong, arrived_second};
ghost use Rattle.ndc_model_cells.specs.Places.{AreInOrder, is_of};
ghost use Rattle.ndc_model_cells.specs.Writing.{Entry, with_written};

/// What is written to one workflow leaves what has arrived and what is learned of all others as it was.
#[tactic(auto, using(crate::proofs::CellLemmas::others_arrived, crate::proofs::CellLemmas::others_learned))]
pub fn writing_leaves_other_workflows()
    ensures arrived { (domain workflow : Text) (entry : Entry) (cell : Cell)
        → is_of domain workflow entry.batch ≡ false
        → IfSome entry.second (λ b. is_of domain workflow b ≡ false)
        → arrived_of domain workflow (with_written entry cell)
        ≡ arrived_of domain workflow cell }
    ensures learned { (domain workflow : Text) (entry : Entry) (cell : Cell)
        → is_of domain workflow entry.batch ≡ false
        → IfSome entry.second (λ b. is_of domain workflow b ≡ false)
        → learned_of domain workflow (with_written entry cell)
        ≡ learned_of domain workflow cell }
{}

/// What has arrived of a workflow is a set, and what is written to it arrives in this set, the batch first and
/// then the one that it carries. The cell stays in order.
#[tactic(auto, using(crate::proofs::PlaceLemmas::set_of_workflow, crate::proofs::PlaceLemmas::written_arrives, crate::proofs::PlaceLemmas::writing_keeps))]
pub fn writing_is_arrival_in_the_workflow()
    ensures set { (domain workflow : Text) (cell : Cell) → IsCell cell
        → IsSet (arrived_of domain workflow cell) }
    ensures arrives { (domain workflow : Text) (entry : Entry) (cell : Cell) → IsCell cell
        → PointsBack entry.batch → is_of domain workflow entry.batch ≡ true
        → IfSome entry.second (λ b. is_of domain workflow b ≡ true)
        → arrived_of domain workflow (with_written entry cell)
        ≡ arrived_second entry.second (arrived entry.batch (arrived_of domain workflow cell)) }
    ensures order { (entry : Entry) (cell : Cell) → IsCell cell → PointsBack entry.batch
        → IfSome entry.second PointsBack → IsCell (with_written entry cell) }
{}

/// What a cell has learned of a workflow only grows.
#[tactic(auto, using(crate::proofs::PlaceLemmas::writing_only_adds))]
pub fn writing_only_adds_learned_batches()
    ensures { (domain workflow : Text) (entry : Entry) (cell : Cell) → IsCell cell
        → PointsBack entry.batch → IfSome entry.second PointsBack
        → IsPart (learned_of domain workflow cell) (learned_of domain workflow
        (with_written entry cell)) }
{}

/// A message of one workflow leaves what has arrived and what is learned of all others as it was.
#[tactic(auto, using(crate::proofs::CellLemmas::others_arrived_by, crate::proofs::CellLemmas::others_learned_by))]
pub fn arrival_leaves_other_workflows()
    ensures arrived { (domain workflow : Text) (sent : Sent) (cell : Cell)
        → is_of domain workflow sent.batch ≡ false
        → IfSome sent.second (λ b. is_of domain workflow b ≡ false)
        → arrived_of domain workflow (arrived_at sent cell) ≡ arrived_of domain workflow cell }
    ensures learned { (domain workflow : Text) (sent : Sent) (cell : Cell)
        → is_of domain workflow sent.batch ≡ false
        → IfSome sent.second (λ b. is_of domain workflow b ≡ false)
        → learned_of domain workflow (arrived_at sent cell) ≡ learned_of domain workflow cell }
{}

/// What a cell has learned of any workflow only grows when a message arrives, and the cell stays in order.
#[tactic(auto, using(crate::proofs::PlaceLemmas::arrival_only_adds, crate::proofs::PlaceLemmas::arrival_keeps))]
pub fn arrival_only_adds_learned_batches()
    ensures adds { (domain workflow : Text) (sent : Sent) (cell : Cell) → IsCell cell
        → PointsBack sent.batch → IfSome sent.second PointsBack
        → IsPart (learned_of domain workflow cell) (learned_of domain workflow
        (arrived_at sent cell)) }
    ensures order { (sent : Sent) (cell : Cell) → IsCell cell → PointsBack sent.batch
        → IfSome sent.second PointsBack → IsCell (arrived_at sent cell) }
{}

/// What a cell has learned of a workflow is sound, where all that has arrived of it is found among a sound set.
#[tactic(auto, using(crate::proofs::SoundLemmas::learned_is_sound))]
pub fn learned_batches_are_sound()
    ensures { (domain workflow : Text) (cell : Cell) (batches : List One) → AreInOrder cell.arrived
        → IsSound batches → IsFoundAmong domain workflow cell batches
        → IsSound (learned_of domain workflow cell) }
{}
