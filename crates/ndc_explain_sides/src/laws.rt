//! Laws of the two sides. The functions do nothing: what each ensures is the law.
ghost use Rattle.std.specs.Prelude.{◌≡◌, true, not, map, List};
ghost use Rattle.std.specs.List.{list_all};
ghost use Rattle.ndc_event.specs.declared.batch.Batch.{Batch};
ghost use Rattle.ndc_event.specs.declared.key.BatchKey.{BatchKey};
ghost use Rattle.ndc_dump_causes.specs.Keys.{is_listed};
ghost use Rattle.ndc_explain_sides.specs.Sides.{events_beside, placed_of, sides_of};

/// Each event of a batch that does not stand is lost exactly once, unless it is a signal: the lost events, one after the
/// other, are those of these batches.
pub fn each_event_is_lost_once()
    ensures { (keys : List BatchKey) (batches : List Batch)
        → map placed_of (sides_of keys batches).lost ≡ events_beside keys batches }
{}

/// Nothing that stands is lost, and what happened on a current branch alone stands.
pub fn what_stands_is_not_lost()
    ensures lost { (keys : List BatchKey) (batches : List Batch)
        → list_all (λ loss. not (is_listed loss.key keys)) (sides_of keys batches).lost ≡ true }
    ensures alone { (keys : List BatchKey) (batches : List Batch)
        → list_all (λ trace. is_listed trace.key keys) (sides_of keys batches).alone ≡ true }
{}
