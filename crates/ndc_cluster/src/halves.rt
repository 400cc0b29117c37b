ghost use Rattle.std.specs.Prelude.{◌≡◌, ℕ, ◌+◌, ◌*◌, ◌<◌, ◌≤◌, length, max};
ghost use Rattle.std.specs.List.{AllByRecursion};
ghost use Rattle.std.specs.Thread.{IsSync, IsSend};
ghost use Rattle.ndc_cluster.specs.Each.{Each};

use std::thread::{Threads, join_mut};

/// Work that can be done beside other work.
pub(crate) trait Work {
    ghost ready: { Self → Type 0 };

    ghost worked: { Self → Self → Type 0 };

    /// Does the work.
    fn work(&mut self)
        requires { ready self.old }
        ensures { worked self.old self.new };
}

/// All of the work is done, the pieces side by side where threads can be made: each half of them beside the other.
#[cycle(halves)]
fn work_all<R: Threads + Sync, P: Work + Send>(rt: &R, pieces: &mut [P])
    requires { AllByRecursion P.ready pieces.old }
    ensures { Each P.worked pieces.old pieces.new }
{
    match pieces {
        [] => {}
        [piece] => piece.work(),
        _ => {
            let (front, back) = pieces.split_at_mut(pieces.len() / 2);
            work_halves(rt, front, back)
        }
    }
}

/// Two halves of the work are done side by side.
#[cycle(halves)]
fn work_halves<R: Threads + Sync, P: Work + Send>(rt: &R, front: &mut [P], back: &mut [P])
    requires front { AllByRecursion P.ready front.old }
    requires back { AllByRecursion P.ready back.old }
    ensures front { Each P.worked front.old front.new }
    ensures back { Each P.worked back.old back.new }
{
    join_mut(
        rt,
        &mut ||
            requires { IsSync R.row × IsSend P.row × AllByRecursion P.ready front.now }
            ensures { Each P.worked front.entry.now front.exit.now }
        { work_all(rt, front) },
        &mut ||
            requires { IsSync R.row × IsSend P.row × AllByRecursion P.ready back.now }
            ensures { Each P.worked back.entry.now back.exit.now }
        { work_all(rt, back) },
    );
}

/// All of the work is done, the last piece first.
fn work_in_turn<P: Work>(pieces: &mut [P])
    requires { AllByRecursion P.ready pieces.old }
    ensures { Each P.worked pieces.old pieces.new }
{
    match pieces {
        [] => {}
        [piece] => piece.work(),
        _ => {
            let (front, back) = pieces.split_at_mut(pieces.len() / 2);
            work_in_turn(back);
            work_in_turn(front);
        }
    }
}

/// All of the work of a list of pieces is done: side by side, or the last piece first.
pub(crate) fn work_list<R: Threads + Sync, P: Work + Send>(
    rt: &R,
    pieces: &mut Vec<P>,
    beside: bool,
)
    requires { AllByRecursion P.ready pieces.old.items }
    ensures { Each P.worked pieces.old.items pieces.new.items }
{
    if beside {
        work_all(rt, pieces.as_mut_slice());
    } else {
        work_in_turn(pieces.as_mut_slice());
    }
}
