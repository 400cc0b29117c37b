// What the definitions give of small worked sets; the checker computes it.
ghost use Rattle.std.specs.Prelude.{◌≡◌, [], ◌∷◌, map, Some, None, codes};
ghost use Rattle.ndc_event.specs.declared.batch.Batch.{Batch};
ghost use Rattle.ndc_history.specs.Common.{best_from};
ghost use Rattle.ndc_reapply.specs.Strays.{origins_of};
ghost use Rattle.ndc_model_sets.specs.declared.view.RunStatus.TheVariants.{Running, Zombie, Closed};
ghost use Rattle.ndc_model_sets.specs.Sets.{arrived};
ghost use Rattle.ndc_model_sets.specs.Learned.{learned};
ghost use Rattle.ndc_model_sets.specs.Paths.{best_item, path_to, events_to, versions_of};
ghost use Rattle.ndc_model_sets.specs.Branches.{current_tip, histories, runs, tips, workflow_tip};
ghost use Rattle.ndc_model_sets.specs.Current.{run_status, strays};
ghost use Rattle.ndc_model_sets.specs.Worked.{key, key_of, item, run, from, begun, forked, behind_a_gap, old_run_wins, copied_twice, longer_loses, first_lost};

/// Two clusters signal one run with their own versions: two branches, of which the greater version leads, and the
/// other one's signal is a stray.
#[tactic(auto, unfolding(ndc_state::specs::Table::row))]
pub fn the_greater_version_leads()
    ensures tips { map (λ b. b.key) (tips (run 1) forked) ≡ key 1 2 ∷ key 2 2 ∷ [] }
    ensures current { key_of (workflow_tip forked) ≡ Some (key 2 2) }
    ensures histories { histories (run 1) forked ≡ (item 3 1 ∷ []) ∷ (item 2 1 ∷ item 3 2 ∷ [])
        ∷ [] }
    ensures strays { origins_of (strays forked) ≡ from 3 1 ∷ [] }
{}

/// The last of four batches arrives alone: it is put off, and the best that the learned branch has in common with
/// its history is the last event that it was written below.
#[tactic(auto, unfolding(ndc_state::specs::Table::row))]
pub fn a_batch_behind_a_gap_is_put_off()
    ensures learned { map (λ b. b.key) (learned behind_a_gap) ≡ key 1 1 ∷ key 1 2 ∷ key 1 3 ∷ [] }
    ensures gap { best_item (best_from 0 (histories (run 1) (learned behind_a_gap))
        (item 3 1 ∷ item 7 2 ∷ [])) ≡ Some (item 3 1) }
{}

/// A closed run that was gone on with elsewhere, with a greater version, is the current run again: the run begun
/// after it is a zombie, and the signal there is a stray.
#[tactic(auto, unfolding(ndc_state::specs::Table::row))]
pub fn the_old_run_wins()
    ensures current { key_of (workflow_tip old_run_wins) ≡ Some (key 2 2) }
    ensures old { run_status (run 1) old_run_wins ≡ Running }
    ensures later { run_status (run 3) old_run_wins ≡ Zombie }
    ensures strays { origins_of (strays old_run_wins)
        ≡ record { run = run 3; event = 3; version = 1 } ∷ [] }
{}

/// A signal that was copied to two branches is settled by the one that leads; only the other branch's own signal
/// is a stray.
#[tactic(auto, unfolding(ndc_state::specs::Table::row))]
pub fn a_copied_signal_is_settled_once()
    ensures tips { map (λ b. b.key) (tips (run 1) copied_twice) ≡ key 1 2 ∷ key 2 3 ∷ key 3 3 ∷ [] }
    ensures current { key_of (workflow_tip copied_twice) ≡ Some (key 3 3) }
    ensures strays { origins_of (strays copied_twice) ≡ from 3 2 ∷ [] }
{}

/// The branch that loses may have more events than the one that leads.
#[tactic(auto, unfolding(ndc_state::specs::Table::row))]
pub fn the_number_of_events_decides_nothing()
    ensures histories { histories (run 1) longer_loses
        ≡ (item 4 1 ∷ []) ∷ (item 2 1 ∷ item 3 2 ∷ []) ∷ [] }
    ensures current { key_of (workflow_tip longer_loses) ≡ Some (key 2 2) }
    ensures old { run_status (run 1) longer_loses ≡ Running }
    ensures later { run_status (run 4) longer_loses ≡ Zombie }
{}

/// Without its first batch nothing of a continued run is learned, nor of the run that goes on; with it all is.
#[tactic(auto, unfolding(ndc_state::specs::Table::row))]
pub fn what_is_carried_waits_for_its_carrier()
    ensures nothing { learned first_lost ≡ [] }
    ensures all { map (λ b. b.key) (learned (arrived begun first_lost))
        ≡ key 1 1 ∷ key 1 2 ∷ key 1 3 ∷ key 1 4 ∷ [] }
    ensures current { key_of (workflow_tip (arrived begun first_lost)) ≡ Some (key 1 4) }
    ensures old { run_status (run 1) (arrived begun first_lost) ≡ Closed }
    ensures later { run_status (run 4) (arrived begun first_lost) ≡ Running }
{}
