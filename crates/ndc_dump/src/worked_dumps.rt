// What the definitions give of small dumps; the checker computes it.
ghost use Rattle.std.specs.Prelude.{◌≡◌, [], ◌∷◌, map, None, Some, Ok, Err, codes};
ghost use Rattle.ndc_event.specs.declared.batch.Batch.{Batch};
ghost use Rattle.ndc_event.specs.declared.kind.EventKind.TheVariants.{DecisionTaskScheduled};
ghost use Rattle.ndc_model_sets.specs.Sets.{arrived};
ghost use Rattle.ndc_model_sets.specs.Worked.{batch, begun, begun_again, copied_twice, copy, first_lost, forked, from, key, old_run_wins, run, signal, signaled};
ghost use Rattle.ndc_dump_causes.specs.declared.error.DumpError.TheVariants.{Line, Key};
ghost use Rattle.ndc_dump_causes.specs.declared.error.KeyCause.TheVariants.{MissingParent, NotWellFormed, SplitVersion, OriginTwice, OriginUnfit, BadReplay, CarrierUnfit};
ghost use Rattle.ndc_dump_causes.specs.declared.error.LineCause.TheVariants.{BadFrame};
ghost use Rattle.ndc_dump_causes.specs.Causes.{sound_or};
ghost use Rattle.ndc_dump.specs.Migrated.{migrated};
ghost use Rattle.ndc_dump.specs.Read.{dump_of};

/// Sets that clusters write have none of the causes.
#[tactic(auto, unfolding(ndc_dump_causes::specs::Causes::sound_or, ndc_state::specs::Table::row))]
pub fn sets_that_clusters_write_have_no_cause()
    ensures forked { sound_or forked ≡ Ok tt }
    ensures copied { sound_or copied_twice ≡ Ok tt }
    ensures closed { sound_or old_run_wins ≡ Ok tt }
    ensures carried { sound_or (arrived begun first_lost) ≡ Ok tt }
{}

/// A set with one batch that does not fit has its cause, with its key.
#[tactic(auto, unfolding(ndc_dump_causes::specs::Causes::sound_or, ndc_state::specs::Table::row))]
pub fn each_cause_has_a_set()
    ensures missing { sound_or first_lost ≡ Err (Key (key 1 2) MissingParent) }
    ensures formed { sound_or
        (begun ∷ signaled (key 1 2) (key 1 1) 4 (signal (codes "ping") (codes "x")) ∷ [])
        ≡ Err (Key (key 1 2) NotWellFormed) }
    ensures split { sound_or
        (begun ∷ signaled (key 1 2) (key 1 1) 3 (signal (codes "p") (codes "x"))
        ∷ signaled (key 1 3) (key 1 1) 3 (signal (codes "q") (codes "x")) ∷ [])
        ≡ Err (Key (key 1 3) SplitVersion) }
    ensures twice { sound_or
        (begun ∷ batch (run 1) (key 1 2) (Some (key 1 1)) None 3
        (signal (codes "p") (codes "x") ∷ copy (codes "p") (codes "x") (from 3 1) ∷ []) ∷ [])
        ≡ Err (Key (key 1 2) OriginTwice) }
    ensures unfit { sound_or
        (begun ∷ signaled (key 1 2) (key 1 1) 3 (copy (codes "p") (codes "x") (from 2 1)) ∷ [])
        ≡ Err (Key (key 1 2) OriginUnfit) }
    ensures replay { sound_or
        (begun ∷ batch (run 1) (key 1 2) (Some (key 1 1)) None 3 (DecisionTaskScheduled ∷ []) ∷ [])
        ≡ Err (Key (key 1 2) BadReplay) }
    ensures carrier { sound_or (begun ∷ begun_again 3 (Some (key 1 2)) ∷ [])
        ≡ Err (Key (key 1 3) CarrierUnfit) }
{}

/// A first batch without its carrier gets it, where the batch just before continues as its run.
pub fn a_continued_run_gets_its_carrier()
    ensures carried { migrated
        (map (λ (b : Batch). record b { carrier = None }) (arrived begun first_lost))
        ≡ arrived begun first_lost }
    ensures other { migrated old_run_wins ≡ old_run_wins }
{}

/// The frame is read first: the heading, and whether a batch follows.
#[tactic(auto, unfolding(crate::specs::Read::dump_of, crate::specs::Read::dump_on))]
pub fn the_frame_is_read_first()
    ensures nothing { dump_of (codes "") ≡ Err (Line 1 BadFrame) }
    ensures names { dump_of (codes "dump 2 alpha\n") ≡ Err (Line 1 BadFrame) }
    ensures spaces { dump_of (codes "dump 2  alpha w1\n") ≡ Err (Line 1 BadFrame) }
    ensures number { dump_of (codes "dump 3 alpha w1\n") ≡ Err (Line 1 BadFrame) }
    ensures alone { dump_of (codes "dump 2 alpha w1\n") ≡ Err (Line 2 BadFrame) }
    ensures follows { dump_of (codes "dump 2 alpha w1\nend\n") ≡ Err (Line 2 BadFrame) }
{}
