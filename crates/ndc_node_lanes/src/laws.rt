//! Laws of lanes and of levels. The functions do nothing: what each ensures is the law.
ghost use Rattle.std.specs.Prelude.{◌≡◌, ◌≤◌, ◌<◌, ℕ, true, false, Contains, IfSome, List, Ok, slice_index};
ghost use Rattle.std.specs.List.{AllByRecursion};
ghost use Rattle.ndc_event.specs.declared.key.BatchKey.{BatchKey as Key};
ghost use Rattle.ndc_event.specs.declared.name.Name.{Name as Text};
ghost use Rattle.ndc_node_lanes.specs.Lane.{IsLane, LaneValue, done_of, heard, rewound, with_learned};
ghost use Rattle.ndc_node_lanes.specs.Levels.{LevelsValue, after_telling, telling_of, trim_level};
ghost use Rattle.ndc_node_lanes.specs.Told.{is_for};
ghost use Rattle.ndc_node_lanes.specs.declared.told.Told.{Told as Entry};
ghost use Rattle.ndc_node_lanes.specs.declared.told_levels.Telling.{Telling as Answer};

/// What is done never falls under one epoch: not where entries are heard, not where a batch is learned, and going back
/// leaves it as it is.
#[tactic(auto, using(crate::proofs::DoneLemmas::done_heard, crate::proofs::DoneLemmas::done_learned))]
pub fn done_never_falls()
    ensures heard { (from next : ℕ) (entries : List Entry) (lane after : LaneValue)
        → heard from next entries lane ≡ Ok after → done_of lane ≤ done_of after }
    ensures learned { (domain workflow : Text) (key : Key) (lane : LaneValue) → IsLane lane
        → done_of lane ≤ done_of (with_learned domain workflow key lane) }
    ensures rewound { (lane : LaneValue) → done_of (rewound lane) ≡ done_of lane }
{}

/// What is done ends at most at each place that is held, and was told.
#[tactic(auto, using(crate::proofs::DoneLemmas::done_least, crate::proofs::DoneLemmas::done_most))]
pub fn done_waits_for_what_is_held()
    ensures held { (lane : LaneValue) → IsLane lane
        → AllByRecursion (λ entry. done_of lane ≤ entry.place) lane.held }
    ensures told { (lane : LaneValue) → IsLane lane → done_of lane ≤ lane.read }
{}

/// An entry that is told for the first time is held, and what is held stays held until the batch that it brings is
/// learned, or the lane goes back.
pub fn what_is_told_is_held_until_it_is_learned()
    ensures told { (from next : ℕ) (entries : List Entry) (lane after : LaneValue) (entry : Entry)
        → heard from next entries lane ≡ Ok after → Contains entries entry
        → lane.read ≤ entry.place → Contains after.held entry }
    ensures heard { (from next : ℕ) (entries : List Entry) (lane after : LaneValue) (entry : Entry)
        → heard from next entries lane ≡ Ok after → Contains lane.held entry
        → Contains after.held entry }
    ensures learned { (domain workflow : Text) (key : Key) (lane : LaneValue) (entry : Entry)
        → Contains lane.held entry → is_for domain workflow key entry ≡ false
        → Contains (with_learned domain workflow key lane).held entry }
{}

/// What is done rises only over places that are learned, or were not told as addressed to the reader: where entries are
/// heard, over none that was held and none that is told for the first time; where a batch is learned, over those alone
/// that bring it.
pub fn done_passes_only_what_is_learned()
    ensures held { (from next : ℕ) (entries : List Entry) (lane after : LaneValue) (entry : Entry)
        → IsLane lane → heard from next entries lane ≡ Ok after → Contains lane.held entry
        → done_of after ≤ entry.place }
    ensures told { (from next : ℕ) (entries : List Entry) (lane after : LaneValue) (entry : Entry)
        → IsLane lane → heard from next entries lane ≡ Ok after → Contains entries entry
        → lane.read ≤ entry.place → done_of after ≤ entry.place }
    ensures learned { (domain workflow : Text) (key : Key) (lane : LaneValue) (entry : Entry)
        → IsLane lane → Contains lane.held entry
        → entry.place < done_of (with_learned domain workflow key lane)
        → is_for domain workflow key entry ≡ true }
{}

/// The level of a reader never falls under one epoch, whatever any reader tells.
#[tactic(auto, using(crate::proofs::LevelLemmas::level_rises))]
pub fn levels_never_fall()
    ensures { (reader level other : ℕ) (answer : Answer) (levels : LevelsValue)
        → slice_index levels.told other
        ≤ slice_index (after_telling reader level answer levels).told other }
{}

/// Levels stay within the queue: where each is at most its length, so it is after a reader has told one.
#[tactic(auto, using(crate::proofs::LevelLemmas::levels_within))]
pub fn levels_stay_within_the_queue()
    ensures { (reader epoch level entries : ℕ) (levels : LevelsValue)
        → AllByRecursion (λ told. told ≤ entries) levels.told
        → AllByRecursion (λ told. told ≤ entries)
        (after_telling reader level (telling_of epoch level entries levels) levels).told }
{}

/// Up to where the queue may be trimmed all readers are done, and no reader's telling brings it down.
#[tactic(auto, using(crate::proofs::LevelLemmas::trim_least, crate::proofs::LevelLemmas::trim_rises))]
pub fn the_trim_level_is_that_of_all_readers()
    ensures least { (levels : LevelsValue)
        → IfSome (trim_level levels) (λ least. AllByRecursion (λ told. least ≤ told) levels.told) }
    ensures rises { (reader level : ℕ) (answer : Answer) (levels : LevelsValue)
        → IfSome (trim_level levels) (λ least.
        IfSome (trim_level (after_telling reader level answer levels)) (λ later. least ≤ later)) }
{}
