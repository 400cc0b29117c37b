//! What each call of a shard keeps of what the caller vouches for, as laws: the conditions of a call hold for the next one,
//! with what was written in the set, the ranges aside.
ghost use Rattle.std.specs.List.{AllByRecursion};
ghost use Rattle.std.specs.Prelude.{◌≡◌, ◌≢◌, ℕ, true, false, List, Some};
ghost use Rattle.ndc_command.specs.declared.command.Command.{Command as Asked};
ghost use Rattle.ndc_event.specs.declared.batch.Batch.{Batch as One};
ghost use Rattle.ndc_event.specs.declared.key.BatchKey.{BatchKey as Key};
ghost use Rattle.ndc_event.specs.declared.name.Name.{Name as Text};
ghost use Rattle.ndc_model_cells.specs.Allowed.{IsAllowed};
ghost use Rattle.ndc_model_cells.specs.Keeping.{CanArrive, CanWrite, CanWriteEach, HasRange, IsAuthor, IsAuthored, IsKept, IsMessageOf, IsWhole, set_behind, with_entries};
ghost use Rattle.ndc_model_cells.specs.declared.job.Job.TheVariants.{Arrive, Command as Commanded, Reapply, Reset};
ghost use Rattle.ndc_model_cells.specs.declared.message.Message.{Message as Sent};
ghost use Rattle.ndc_model_cells.specs.Arrival.{arrived_at};
ghost use Rattle.ndc_model_cells.specs.Cells.{Cell as CellValue, empty_cell, learned_of, message_at};
ghost use Rattle.ndc_model_cells.specs.Jobs.{written_at};
ghost use Rattle.ndc_model_cells.specs.Places.{is_of};
ghost use Rattle.ndc_model_cells.specs.Writing.{Desk as DeskValue, command_of, reapplication_of, reset_at, with_all_written};
ghost use Rattle.ndc_model_sets.specs.Sound.{IsSound};
ghost use Rattle.ndc_shard.specs.Loading.{AreAllOf, handed};
ghost use Rattle.ndc_shard.specs.Orderly.{IsOrderly};

/// Where the caller vouches for what a call asks, a cell may do the job of the call, so a round may be asked for it.
pub fn what_a_caller_vouches_for_may_be_done()
    ensures commands { (home : DeskValue) (domain workflow : Text) (cell : CellValue)
        → IsOrderly cell
        → CanWrite home domain workflow cell → (command : Asked)
        → IsAllowed home (Commanded domain workflow command) cell }
    ensures resets { (home : DeskValue) (domain workflow : Text) (cell : CellValue) → IsOrderly cell
        → CanWrite home domain workflow cell → (event : ℕ)
        → IsAllowed home (Reset domain workflow event) cell }
    ensures arrivals { (home : DeskValue) (sent : Sent) (cell : CellValue) → IsOrderly cell
        → CanArrive sent cell → IsAllowed home (Arrive sent) cell }
    ensures reapplications { (home : DeskValue) (cell : CellValue) → IsOrderly cell
        → CanWriteEach home cell → IsAllowed home Reapply cell }
{}

/// Where nothing has arrived, any sound set of a workflow is kept.
pub fn an_empty_cell_keeps_every_set()
    ensures { (all : List One) (domain workflow : Text)
        → AllByRecursion (λ b. is_of domain workflow b ≡ true) all → IsSound all
        → IsKept all domain workflow empty_cell }
{}

/// The arrival of a message of the set keeps it, its author and what has arrived whole, and the set of any other workflow.
pub fn arrivals_keep_the_sets()
    ensures kept { (all : List One) (sent : Sent) (cell : CellValue) → IsOrderly cell
        → IsKept all sent.batch.domain sent.batch.workflow cell → IsMessageOf all sent
        → IsKept all sent.batch.domain sent.batch.workflow (arrived_at sent cell) }
    ensures author { (home : DeskValue) (all : List One) (sent : Sent) (cell : CellValue)
        → IsOrderly cell → IsKept all sent.batch.domain sent.batch.workflow cell
        → IsMessageOf all sent
        → IsAuthor home all sent.batch.domain sent.batch.workflow cell
        → IsAuthor home all sent.batch.domain sent.batch.workflow (arrived_at sent cell) }
    ensures whole { (all : List One) (sent : Sent) (cell : CellValue) → IsOrderly cell
        → IsKept all sent.batch.domain sent.batch.workflow cell → IsMessageOf all sent
        → IsWhole sent.batch.domain sent.batch.workflow cell
        → IsWhole sent.batch.domain sent.batch.workflow (arrived_at sent cell) }
    ensures others { (all own : List One) (domain workflow : Text) (sent : Sent) (cell : CellValue)
        → IsOrderly cell → IsKept own sent.batch.domain sent.batch.workflow cell
        → IsMessageOf own sent
        → is_of domain workflow sent.batch ≡ false → IsKept all domain workflow cell
        → IsKept all domain workflow (arrived_at sent cell) }
{}

/// After a command, a reset or a reapplication the cell is the author of the set with what was written.
pub fn what_is_written_is_in_the_set()
    ensures commands { (home : DeskValue) (all : List One) (domain workflow : Text)
        (cell : CellValue) → IsOrderly cell → IsAuthored home all domain workflow cell
        → HasRange all → (command : Asked)
        → IsAuthored home (set_behind
        (command_of home domain workflow command cell) all) domain workflow (written_at
        (command_of home domain workflow command cell) cell) }
    ensures resets { (home : DeskValue) (all : List One) (domain workflow : Text) (cell : CellValue)
        → IsOrderly cell → IsAuthored home all domain workflow cell → HasRange all → (event : ℕ)
        → IsAuthored home (set_behind
        (reset_at home domain workflow event cell) all) domain workflow (written_at
        (reset_at home domain workflow event cell) cell) }
    ensures reapplications { (home : DeskValue) (all : List One) (domain workflow : Text)
        (cell : CellValue) → IsOrderly cell → IsAuthored home all domain workflow cell
        → HasRange all
        → IsAuthored home (with_entries
        (reapplication_of home domain workflow cell) all) domain workflow (with_all_written
        (reapplication_of home domain workflow cell) cell) }
{}

/// The cell of another cluster, which is the author of the set, is that of the set with what was written.
pub fn what_another_writes_is_in_the_set()
    ensures commands { (home : DeskValue) (all : List One) (domain workflow : Text)
        (cell : CellValue) → IsOrderly cell → IsAuthored home all domain workflow cell
        → HasRange all → (command : Asked) (there : DeskValue) (other : CellValue)
        → there.clusters ≡ home.clusters → there.me ≢ home.me
        → IsAuthored there all domain workflow other
        → IsAuthored there (set_behind
        (command_of home domain workflow command cell) all) domain workflow other }
    ensures resets { (home : DeskValue) (all : List One) (domain workflow : Text) (cell : CellValue)
        → IsOrderly cell → IsAuthored home all domain workflow cell → HasRange all
        → (event : ℕ) (there : DeskValue) (other : CellValue)
        → there.clusters ≡ home.clusters → there.me ≢ home.me
        → IsAuthored there all domain workflow other
        → IsAuthored there (set_behind
        (reset_at home domain workflow event cell) all) domain workflow other }
    ensures reapplications { (home : DeskValue) (all : List One) (domain workflow : Text)
        (cell : CellValue) → IsOrderly cell → IsAuthored home all domain workflow cell
        → HasRange all → (there : DeskValue) (other : CellValue)
        → there.clusters ≡ home.clusters → there.me ≢ home.me
        → IsAuthored there all domain workflow other
        → IsAuthored there (with_entries
        (reapplication_of home domain workflow cell) all) domain workflow other }
{}

/// The message that a cell has of a learned batch is one of the set, and may be handed to any other cell that keeps it.
pub fn what_is_sent_is_of_the_set()
    ensures { (all : List One) (domain workflow : Text) (key : Key) (cell : CellValue)
        → IsOrderly cell → IsKept all domain workflow cell → IsWhole domain workflow cell
        → (sent : Sent)
        → message_at cell (record { domain = domain; workflow = workflow; key = key }) ≡ Some sent
        → IsMessageOf all sent × (is_of domain workflow sent.batch ≡ true) }
{}

/// An engine loads its state again: an empty cell to which the messages of all that a cell has learned of a domain are handed,
/// in any order and each any number of times, has learned of each workflow of the domain what that cell has, and shows the
/// same of it.
pub fn a_cell_that_is_loaded_has_learned_the_same()
    ensures { (all : List One) (domain workflow : Text) (cell : CellValue) (messages : List Sent)
        → IsOrderly cell → IsKept all domain workflow cell → IsWhole domain workflow cell
        → AreAllOf domain cell messages
        → learned_of domain workflow (handed messages empty_cell)
        ≡ learned_of domain workflow cell }
{}
