ghost use Rattle.std.specs.Prelude.{◌≡◌, ◌≢◌, ◌+◌, ◌<◌, ◌≤◌, true, false, Some, [], ◌∷◌, IsOk, IsErr, IsErrAnd, map, length, IfSome, Ok};
ghost use Rattle.std.specs.String.{string_bytes};
ghost use Rattle.ndc_script_types.specs.Print.{script_text};
ghost use Rattle.ndc_dump.specs.Read.{dump_of};
ghost use Rattle.ndc_index.specs.Seats.{shown};
ghost use Rattle.ndc_tool_words.specs.WellFormed.{IsWellFormedAsked};
ghost use Rattle.ndc_tool_words.specs.Words.{asked_of};
ghost use Rattle.ndc_port.specs.Bytes.{Appends, AppendsFront};
ghost use Rattle.ndc_port.specs.Fault.{Rose};
ghost use Rattle.ndc_script_read.specs.Body.{script_of};
ghost use Rattle.ndc_world.specs.Seats.{AreNew};
ghost use Rattle.ndc_script.specs.Generate.{generated_script};
ghost use Rattle.ndc_dump.specs.Input.{most_bytes};
ghost use Rattle.ndc_dump.specs.Telling.{IsAmong, Tells};
ghost use Rattle.ndc_tool_top.specs.Asking.{IfDemo, IfMade, IfRun, IfShown, is_refused, is_run, is_shown};
ghost use Rattle.ndc_tool_top.specs.Demo.{SaysNumbers, SaysSame, demo_text};
ghost use Rattle.ndc_tool_top.specs.Running.{FrontOfReport, StopsWithin, Succeeds, TellsError};
ghost use Rattle.ndc_tool_top.specs.Show.{PrintsAsRead, Shows, ShowsFront, StopsShowing};
ghost use Rattle.ndc_tool_top.specs.Top.{LeavesSource, TellsDumpError, TellsSomeCause, TellsSomeLine, status_line};

use crate::demo::demo_text;
use crate::fault::Fault;
use crate::make::made_text;
use crate::output::{end, write_output};
use crate::run::run_input;
use crate::show::{ShownAs, show_input};
use ndc_index::Indexer;
use ndc_port::{Gate, Sink, Source};
use ndc_tool_words::{Asked, WordsError, read};
use std::alloc::Global;
use std::thread::Threads;

/// Does what is asked for, and answers the status.
fn perform<R: Threads + Sync, S: Source, K: Sink, E: Sink, G: Gate>(
    rt: &R,
    alloc: Global,
    asked: Asked,
    source: &mut S,
    out: &mut K,
    err: &mut E,
    gate: &G,
    indexers: Vec<Box<dyn Indexer>>,
) -> u8
    requires well_formed { IsWellFormedAsked asked }
    requires new { AreNew (map (λ b. shown (title b) (failing b) (list b)) indexers.items) }
    ensures words { result ≡ 2 → is_refused (map (λ b. shown (title b) (failing b) (list b)) indexers.items) (Some asked) ≡ true }
    ensures refused { is_refused (map (λ b. shown (title b) (failing b) (list b)) indexers.items) (Some asked) ≡ true → IsAmong result (2 ∷ 8 ∷ []) }

    // Where the words are refused nothing is read or written; what asks for no input reads nothing.
    ensures refused_source { is_refused (map (λ b. shown (title b) (failing b) (list b)) indexers.items) (Some asked) ≡ true → source.new ≡ source.old }
    ensures refused_out { is_refused (map (λ b. shown (title b) (failing b) (list b)) indexers.items) (Some asked) ≡ true → out.new ≡ out.old }
    ensures made_source { IfMade (Some asked) (λ _ _. source.new ≡ source.old) }
    ensures demo_source { IfDemo (Some asked) (λ _. source.new ≡ source.old) }

    // What was done at status 0, by what was asked for.
    ensures run { IfRun (Some asked) (λ index late. result ≡ 0 → Succeeds (map (λ b. shown (title b) (failing b) (list b)) indexers.items) index late (S.left source.old) (S.left source.new) (K.written out.old) (K.written out.new)) }
    ensures shown { IfShown (Some asked) (λ how. result ≡ 0 → Shows how (S.left source.old) (S.left source.new) (K.written out.old) (K.written out.new)) }
    ensures as_read { IfShown (Some asked) (λ how. result ≡ 0 → PrintsAsRead how (S.left source.old) (K.written out.old) (K.written out.new)) }
    ensures made { IfMade (Some asked) (λ count seed. result ≡ 0 → Appends (K.written out.old) (K.written out.new) (script_text (generated_script count seed))) }
    ensures made_again { IfMade (Some asked) (λ count seed. result ≡ 0 → script_of (script_text (generated_script count seed)) ≡ Ok (generated_script count seed)) }
    ensures demo { IfDemo (Some asked) (λ count. result ≡ 0 → Appends (K.written out.old) (K.written out.new) (demo_text (generated_script count 0))) }
    ensures demo_same { IfDemo (Some asked) (λ count. result ≡ 0 → SaysSame (generated_script count 0)) }
    ensures demo_numbers { IfDemo (Some asked) (λ count. result ≡ 0 → SaysNumbers (count + 7) (generated_script count 0)) }
    ensures silent { result ≡ 0 → E.written err.new ≡ E.written err.old }

    // Status 3 tells the first faulty line of a script with its cause, and comes from `run` alone.
    ensures script { result ≡ 3 → IfSome (S.left source.old) (λ bytes. (length bytes ≤ most_bytes)
        × IsErrAnd (script_of bytes) (TellsError (E.written err.old) (E.written err.new) (E.faults err.old) (E.faults err.new))) }
    ensures script_line { result ≡ 3 → TellsSomeLine (E.written err.old) (E.written err.new) (E.faults err.old) (E.faults err.new) }
    ensures from_run { result ≡ 3 → is_run (Some asked) ≡ true }

    // Status 7 tells the first cause why the input is not a dump, and comes from `rebuild` and `inspect` alone.
    ensures dump { result ≡ 7 → IfSome (S.left source.old) (λ bytes. (length bytes ≤ most_bytes)
        × IsErrAnd (dump_of bytes) (TellsDumpError (E.written err.old) (E.written err.new) (E.faults err.old) (E.faults err.new))) }
    ensures dump_line { result ≡ 7 → TellsSomeCause (E.written err.old) (E.written err.new) (E.faults err.old) (E.faults err.new) }
    ensures from_shown { result ≡ 7 → is_shown (Some asked) ≡ true }
    ensures read { result ≡ 4 → Rose (S.faults source.old) (S.faults source.new) }
    ensures write { result ≡ 5 → Rose (K.faults out.old) (K.faults out.new) }
    ensures limit { result ≡ 6 → IfSome (S.left source.old) (λ bytes. most_bytes < length bytes) }
    ensures told { IfSome (status_line result) (Tells (E.written err.old) (E.written err.new) (E.faults err.old) (E.faults err.new)) }

    // What is left in the source of an input.
    ensures run_source { IfRun (Some asked) (λ _ _. LeavesSource result (S.left source.old) (S.left source.new)) }
    ensures shown_source { IfShown (Some asked) (λ _. LeavesSource result (S.left source.old) (S.left source.new)) }

    // Which statuses can come, by what was asked for, and by the bytes that were left where the source tells them.
    ensures among_run { IfRun (Some asked) (λ _ _. IsAmong result (0 ∷ 2 ∷ 3 ∷ 4 ∷ 5 ∷ 6 ∷ 8 ∷ [])) }
    ensures among_shown { IfShown (Some asked) (λ _. IsAmong result (0 ∷ 4 ∷ 5 ∷ 6 ∷ 7 ∷ 8 ∷ [])) }
    ensures above { IfRun (Some asked) (λ _ _. IfSome (S.left source.old) (λ bytes. most_bytes < length bytes → IsAmong result (2 ∷ 4 ∷ 6 ∷ 8 ∷ []))) }
    ensures unread { IfRun (Some asked) (λ _ _. IfSome (S.left source.old) (λ bytes. length bytes ≤ most_bytes → IsErr (script_of bytes) → IsAmong result (2 ∷ 3 ∷ 4 ∷ 8 ∷ []))) }
    ensures complete { IfRun (Some asked) (λ _ _. IfSome (S.left source.old) (λ bytes. length bytes ≤ most_bytes → IsOk (script_of bytes) → IsAmong result (0 ∷ 2 ∷ 4 ∷ 5 ∷ 8 ∷ []))) }
    ensures above_dump { IfShown (Some asked) (λ _. IfSome (S.left source.old) (λ bytes. most_bytes < length bytes → IsAmong result (4 ∷ 6 ∷ 8 ∷ []))) }
    ensures no_dump { IfShown (Some asked) (λ _. IfSome (S.left source.old) (λ bytes. length bytes ≤ most_bytes → IsErr (dump_of bytes) → IsAmong result (4 ∷ 7 ∷ 8 ∷ []))) }
    ensures whole_dump { IfShown (Some asked) (λ _. IfSome (S.left source.old) (λ bytes. length bytes ≤ most_bytes → IsOk (dump_of bytes) → IsAmong result (0 ∷ 4 ∷ 5 ∷ 8 ∷ []))) }
    ensures whole_made { IfMade (Some asked) (λ _ _. IsAmong result (0 ∷ 5 ∷ 8 ∷ [])) }
    ensures whole_demo { IfDemo (Some asked) (λ _. IsAmong result (0 ∷ 5 ∷ 8 ∷ [])) }

    // What is written: nothing before the output begins or where the input is none, and never more than a prefix of it.
    ensures early { IsAmong result (2 ∷ 3 ∷ 4 ∷ 6 ∷ 7 ∷ []) → K.written out.new ≡ K.written out.old }
    ensures unwritten { is_run (Some asked) ≡ false → result ≡ 8 → K.written out.new ≡ K.written out.old }
    ensures stopped { IfRun (Some asked) (λ index late. result ≡ 5 → StopsWithin (map (λ b. shown (title b) (failing b) (list b)) indexers.items) index late (S.left source.old) (K.written out.old) (K.written out.new)) }
    ensures front { IfRun (Some asked) (λ index late. result ≢ 0 → FrontOfReport (map (λ b. shown (title b) (failing b) (list b)) indexers.items) index late (S.left source.old) (K.written out.old) (K.written out.new)) }
    ensures shown_stopped { IfShown (Some asked) (λ how. result ≡ 5 → StopsShowing how (S.left source.old) (K.written out.old) (K.written out.new)) }
    ensures shown_front { IfShown (Some asked) (λ how. result ≢ 0 → ShowsFront how (S.left source.old) (K.written out.old) (K.written out.new)) }
    ensures made_front { IfMade (Some asked) (λ count seed. AppendsFront (K.written out.old) (K.written out.new) (script_text (generated_script count seed))) }
    ensures demo_front { IfDemo (Some asked) (λ count. AppendsFront (K.written out.old) (K.written out.new) (demo_text (generated_script count 0))) }
{
    match asked {
        Asked::Run {
            workers,
            index,
            late,
        } => {
            let index = index.as_slice();
            let late = late.as_slice();
            run_input(
                rt, alloc, gate, workers, index, late, source, out, err, indexers,
            )
        }
        Asked::Rebuild => show_input(alloc, ShownAs::Dump, source, out, err),
        Asked::Inspect => show_input(alloc, ShownAs::Tree, source, out, err),
        Asked::Make { count, seed } => write_output(made_text(alloc, count, seed), out, err),
        Asked::Demo { count } => write_output(demo_text(rt, alloc, gate, count), out, err),
    }
}

/// Runs the program on its words, which do not hold its name, with the indexers that it may tell, and answers the status
/// that it ends with. `run` reads a script, runs it and writes the report, through the gate where it has several
/// workers; `rebuild` reads a dump and prints it again from its batches, `inspect` prints its trees; `make` prints a
/// script that is drawn from a seed, and `demo` shows what becomes of one. The indexers were told nothing yet.
///
/// 0 where the input was read to its end and all was written; 2 only where the words are refused or name an indexer that
/// is not there; 3 only where the input of `run` is not a script; 4 only where reading failed; 5 only where writing
/// failed; 6 only where the input has more than 16,777,216 bytes; 7 only where the input of `rebuild` or `inspect` is
/// not a dump; 8 where memory ran out, which may be at any time. The order of the statuses is 2, 4, 6, 3, 7, 5, so
/// where memory suffices and reading does not fail, 2, 3, 6 and 7 come exactly where they may. After a fault a line on
/// `err` tells of it. Refused words read and write nothing, and `make` and `demo` read nothing. Whatever the status,
/// `out` has what it had, followed by a prefix of what is to be written; by nothing where the input is neither a script
/// nor a dump.
pub fn ndc_top<R: Threads + Sync, S: Source, K: Sink, E: Sink, G: Gate>(
    rt: &R,
    alloc: Global,
    words: &[String],
    source: &mut S,
    out: &mut K,
    err: &mut E,
    gate: &G,
    indexers: Vec<Box<dyn Indexer>>,
) -> u8
    requires new { AreNew (map (λ b. shown (title b) (failing b) (list b)) indexers.items) }
    ensures words { result ≡ 2 → is_refused (map (λ b. shown (title b) (failing b) (list b)) indexers.items) (asked_of (map string_bytes words.now)) ≡ true }
    ensures refused { is_refused (map (λ b. shown (title b) (failing b) (list b)) indexers.items) (asked_of (map string_bytes words.now)) ≡ true → IsAmong result (2 ∷ 8 ∷ []) }

    // Where the words are refused nothing is read or written; what asks for no input reads nothing.
    ensures refused_source { is_refused (map (λ b. shown (title b) (failing b) (list b)) indexers.items) (asked_of (map string_bytes words.now)) ≡ true → source.new ≡ source.old }
    ensures refused_out { is_refused (map (λ b. shown (title b) (failing b) (list b)) indexers.items) (asked_of (map string_bytes words.now)) ≡ true → out.new ≡ out.old }
    ensures made_source { IfMade (asked_of (map string_bytes words.now)) (λ _ _. source.new ≡ source.old) }
    ensures demo_source { IfDemo (asked_of (map string_bytes words.now)) (λ _. source.new ≡ source.old) }

    // What was done at status 0, by what was asked for.
    ensures run { IfRun (asked_of (map string_bytes words.now)) (λ index late. result ≡ 0 → Succeeds (map (λ b. shown (title b) (failing b) (list b)) indexers.items) index late (S.left source.old) (S.left source.new) (K.written out.old) (K.written out.new)) }
    ensures shown { IfShown (asked_of (map string_bytes words.now)) (λ how. result ≡ 0 → Shows how (S.left source.old) (S.left source.new) (K.written out.old) (K.written out.new)) }
    ensures as_read { IfShown (asked_of (map string_bytes words.now)) (λ how. result ≡ 0 → PrintsAsRead how (S.left source.old) (K.written out.old) (K.written out.new)) }
    ensures made { IfMade (asked_of (map string_bytes words.now)) (λ count seed. result ≡ 0 → Appends (K.written out.old) (K.written out.new) (script_text (generated_script count seed))) }
    ensures made_again { IfMade (asked_of (map string_bytes words.now)) (λ count seed. result ≡ 0 → script_of (script_text (generated_script count seed)) ≡ Ok (generated_script count seed)) }
    ensures demo { IfDemo (asked_of (map string_bytes words.now)) (λ count. result ≡ 0 → Appends (K.written out.old) (K.written out.new) (demo_text (generated_script count 0))) }
    ensures demo_same { IfDemo (asked_of (map string_bytes words.now)) (λ count. result ≡ 0 → SaysSame (generated_script count 0)) }
    ensures demo_numbers { IfDemo (asked_of (map string_bytes words.now)) (λ count. result ≡ 0 → SaysNumbers (count + 7) (generated_script count 0)) }
    ensures silent { result ≡ 0 → E.written err.new ≡ E.written err.old }

    // Status 3 tells the first faulty line of a script with its cause, and comes from `run` alone.
    ensures script { result ≡ 3 → IfSome (S.left source.old) (λ bytes. (length bytes ≤ most_bytes)
        × IsErrAnd (script_of bytes) (TellsError (E.written err.old) (E.written err.new) (E.faults err.old) (E.faults err.new))) }
    ensures script_line { result ≡ 3 → TellsSomeLine (E.written err.old) (E.written err.new) (E.faults err.old) (E.faults err.new) }
    ensures from_run { result ≡ 3 → is_run (asked_of (map string_bytes words.now)) ≡ true }

    // Status 7 tells the first cause why the input is not a dump, and comes from `rebuild` and `inspect` alone.
    ensures dump { result ≡ 7 → IfSome (S.left source.old) (λ bytes. (length bytes ≤ most_bytes)
        × IsErrAnd (dump_of bytes) (TellsDumpError (E.written err.old) (E.written err.new) (E.faults err.old) (E.faults err.new))) }
    ensures dump_line { result ≡ 7 → TellsSomeCause (E.written err.old) (E.written err.new) (E.faults err.old) (E.faults err.new) }
    ensures from_shown { result ≡ 7 → is_shown (asked_of (map string_bytes words.now)) ≡ true }
    ensures read { result ≡ 4 → Rose (S.faults source.old) (S.faults source.new) }
    ensures write { result ≡ 5 → Rose (K.faults out.old) (K.faults out.new) }
    ensures limit { result ≡ 6 → IfSome (S.left source.old) (λ bytes. most_bytes < length bytes) }
    ensures told { IfSome (status_line result) (Tells (E.written err.old) (E.written err.new) (E.faults err.old) (E.faults err.new)) }

    // What is left in the source of an input.
    ensures run_source { IfRun (asked_of (map string_bytes words.now)) (λ _ _. LeavesSource result (S.left source.old) (S.left source.new)) }
    ensures shown_source { IfShown (asked_of (map string_bytes words.now)) (λ _. LeavesSource result (S.left source.old) (S.left source.new)) }

    // Which statuses can come, by what was asked for, and by the bytes that were left where the source tells them.
    ensures among_run { IfRun (asked_of (map string_bytes words.now)) (λ _ _. IsAmong result (0 ∷ 2 ∷ 3 ∷ 4 ∷ 5 ∷ 6 ∷ 8 ∷ [])) }
    ensures among_shown { IfShown (asked_of (map string_bytes words.now)) (λ _. IsAmong result (0 ∷ 4 ∷ 5 ∷ 6 ∷ 7 ∷ 8 ∷ [])) }
    ensures above { IfRun (asked_of (map string_bytes words.now)) (λ _ _. IfSome (S.left source.old) (λ bytes. most_bytes < length bytes → IsAmong result (2 ∷ 4 ∷ 6 ∷ 8 ∷ []))) }
    ensures unread { IfRun (asked_of (map string_bytes words.now)) (λ _ _. IfSome (S.left source.old) (λ bytes. length bytes ≤ most_bytes → IsErr (script_of bytes) → IsAmong result (2 ∷ 3 ∷ 4 ∷ 8 ∷ []))) }
    ensures complete { IfRun (asked_of (map string_bytes words.now)) (λ _ _. IfSome (S.left source.old) (λ bytes. length bytes ≤ most_bytes → IsOk (script_of bytes) → IsAmong result (0 ∷ 2 ∷ 4 ∷ 5 ∷ 8 ∷ []))) }
    ensures above_dump { IfShown (asked_of (map string_bytes words.now)) (λ _. IfSome (S.left source.old) (λ bytes. most_bytes < length bytes → IsAmong result (4 ∷ 6 ∷ 8 ∷ []))) }
    ensures no_dump { IfShown (asked_of (map string_bytes words.now)) (λ _. IfSome (S.left source.old) (λ bytes. length bytes ≤ most_bytes → IsErr (dump_of bytes) → IsAmong result (4 ∷ 7 ∷ 8 ∷ []))) }
    ensures whole_dump { IfShown (asked_of (map string_bytes words.now)) (λ _. IfSome (S.left source.old) (λ bytes. length bytes ≤ most_bytes → IsOk (dump_of bytes) → IsAmong result (0 ∷ 4 ∷ 5 ∷ 8 ∷ []))) }
    ensures whole_made { IfMade (asked_of (map string_bytes words.now)) (λ _ _. IsAmong result (0 ∷ 5 ∷ 8 ∷ [])) }
    ensures whole_demo { IfDemo (asked_of (map string_bytes words.now)) (λ _. IsAmong result (0 ∷ 5 ∷ 8 ∷ [])) }

    // What is written: nothing before the output begins or where the input is none, and never more than a prefix of it.
    ensures early { IsAmong result (2 ∷ 3 ∷ 4 ∷ 6 ∷ 7 ∷ []) → K.written out.new ≡ K.written out.old }
    ensures unwritten { is_run (asked_of (map string_bytes words.now)) ≡ false → result ≡ 8 → K.written out.new ≡ K.written out.old }
    ensures stopped { IfRun (asked_of (map string_bytes words.now)) (λ index late. result ≡ 5 → StopsWithin (map (λ b. shown (title b) (failing b) (list b)) indexers.items) index late (S.left source.old) (K.written out.old) (K.written out.new)) }
    ensures front { IfRun (asked_of (map string_bytes words.now)) (λ index late. result ≢ 0 → FrontOfReport (map (λ b. shown (title b) (failing b) (list b)) indexers.items) index late (S.left source.old) (K.written out.old) (K.written out.new)) }
    ensures shown_stopped { IfShown (asked_of (map string_bytes words.now)) (λ how. result ≡ 5 → StopsShowing how (S.left source.old) (K.written out.old) (K.written out.new)) }
    ensures shown_front { IfShown (asked_of (map string_bytes words.now)) (λ how. result ≢ 0 → ShowsFront how (S.left source.old) (K.written out.old) (K.written out.new)) }
    ensures made_front { IfMade (asked_of (map string_bytes words.now)) (λ count seed. AppendsFront (K.written out.old) (K.written out.new) (script_text (generated_script count seed))) }
    ensures demo_front { IfDemo (asked_of (map string_bytes words.now)) (λ count. AppendsFront (K.written out.old) (K.written out.new) (demo_text (generated_script count 0))) }
{
    match read(alloc, words) {
        Ok(asked) => perform(rt, alloc, asked, source, out, err, gate, indexers),
        Err(WordsError::Refused) => end(Fault::Words, err),
        Err(WordsError::Memory) => end(Fault::Memory, err),
    }
}
