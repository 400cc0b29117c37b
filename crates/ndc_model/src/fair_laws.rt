// Fair worlds, as laws.
ghost use Rattle.ndc_script_types.specs.declared.script.Header.{Header as Head};
ghost use Rattle.ndc_model.specs.Facts.{IsReached};
ghost use Rattle.ndc_model.specs.World.{opening_world};

/// The opening world is shaped by its header and fair, and what holds of handovers, letters and reports holds
/// there.
#[tactic(auto, using(crate::proofs::FairLemmas::opening_reached))]
pub fn the_opening_world_is_fair()
    ensures { (header : Head) → IsReached header 0 (opening_world header) }
{}
