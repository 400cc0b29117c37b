ghost use Rattle.std.specs.Prelude.{◌≡◌, Option, Some, None, OnSome, ◌↔◌, []};
ghost use Rattle.ndc_model_sets.specs.Current.{status_of};
ghost use Rattle.ndc_current.specs.Pick.{greater_of, pick_from, pick_of};

use ndc_event::BatchKey;
use ndc_model_sets::RunStatus;

/// The one with the greater key: of two with one key the first.
fn greater(
    place: usize,
    key: BatchKey,
    later: Option<(usize, BatchKey)>,
) -> Option<(usize, BatchKey)>
    ensures { result ≡ greater_of (place, key) later }
{
    match later {
        None => Some((place, key)),
        Some(other) => {
            if key < other.1 {
                Some(other)
            } else {
                Some((place, key))
            }
        }
    }
}

/// The place of the greatest of the tips of the current branches of a workflow's runs; none exactly where there
/// is not a tip. Its run is the current one.
pub fn pick(tips: &[BatchKey]) -> Option<usize>
    ensures { result ≡ pick_of tips.now }
{
    let mut best = None;
    let mut place = tips.len();
    while place > 0 {
        place -= 1;
        best = greater(place, tips[place], best);
    }
    best.map(|found| found.0)
}

/// The status of a run that is running or closed on its current branch, and is the current run or not: a closed
/// run is closed; an open one is running where it is the current run, and else a zombie.
pub fn status(is_running: bool, is_current: bool) -> RunStatus
    ensures { result ≡ status_of is_running is_current }
{
    match (is_running, is_current) {
        (false, _) => RunStatus::Closed,
        (true, true) => RunStatus::Running,
        (true, false) => RunStatus::Zombie,
    }
}
