// What becomes of indexers, as laws.
ghost use Rattle.std.specs.Prelude.{◌≡◌, ◌≢◌, ℕ, AllPairs, List, [], ◌++◌};
ghost use Rattle.ndc_event.specs.declared.name.Name.{Name as Label};
ghost use Rattle.ndc_index.specs.Lines.{index_line};
ghost use Rattle.ndc_index.specs.Seats.{IndexerValue, after_all, chosen, new_seat, seat_line, seats_known};
ghost use Rattle.ndc_index.specs.declared.seen.Seen.{Seen as Told};

/// After all that was told, the line of a seat is the index line of an indexer that was told all of it, up to its
/// first call that fails.
#[tactic(auto, using(crate::proofs::LawLemmas::lines_are_index_lines))]
pub fn seats_show_index_lines()
    ensures { (name : Label) (failing own : List ℕ) (seen : List Told)
        → seat_line (after_all seen
        (new_seat name (record { title = name; failing = failing; list = [] }))) own
        ≡ index_line seen (record { name = name; failing = failing; own = own }) }
{}

/// Where no name stands twice, each has the first indexer of its name; there are no seats exactly where a name has no
/// indexer.
#[tactic(auto, using(crate::proofs::LawLemmas::first_chosen))]
pub fn the_first_of_each_name_is_chosen()
    ensures { (names late : List Label) (all : List IndexerValue)
        → AllPairs (λ one two. one ≢ two) (names ++ late) → chosen names late all
        ≡ seats_known all names late }
{}
