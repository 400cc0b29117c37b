// Origins and views, as laws.
ghost use Rattle.std.specs.Prelude.{◌≡◌, List};
ghost use Rattle.ndc_event.specs.declared.batch.Batch.{Batch};
ghost use Rattle.ndc_state.specs.Laws.{AreApart};
ghost use Rattle.ndc_model_sets.specs.Sets.{IsSet, Has};
ghost use Rattle.ndc_model_sets.specs.Learned.{learned, IsPart};
ghost use Rattle.ndc_model_sets.specs.Current.{state_to};
ghost use Rattle.ndc_model_sets.specs.Origins.{origins_in};
ghost use Rattle.ndc_model_sets.specs.Paths.{events_to};
ghost use Rattle.ndc_model_sets.specs.Sound.{IsSound};
ghost use Rattle.ndc_model_sets.specs.View.{view_of};

/// On each path of a sound set no origin stands twice.
#[tactic(auto, using(crate::proofs::ViewLaws::apart_on_paths))]
pub fn no_origin_stands_twice_on_a_path()
    ensures { (batches : List Batch) (b : Batch) → IsSound batches → Has batches b
        → AreApart (origins_in b.run (events_to b.key batches)) }
{}

/// The state of a path of a sound set has exactly the origins of the path's signals, in order.
#[tactic(auto, using(crate::proofs::ViewLaws::origins_of_the_path))]
pub fn states_have_the_origins_of_their_paths()
    ensures { (batches : List Batch) (b : Batch) → IsSound batches → Has batches b
        → (state_to b.run b.key batches).origins ≡ origins_in b.run (events_to b.key batches) }
{}

/// Clusters that have learned the same batches show the same view, whatever else has arrived at either.
#[tactic(auto, using(crate::proofs::ViewLaws::one_view))]
pub fn equal_learned_sets_give_equal_views()
    ensures { (one two : List Batch) → IsSet one → IsSet two → IsPart (learned one) (learned two)
        → IsPart (learned two) (learned one)
        → view_of (learned one) ≡ view_of (learned two) }
{}
