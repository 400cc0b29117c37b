//! What the program shows of a dump.
ghost use Rattle.std.specs.Prelude.{◌≡◌, ◌≢◌, ◌≤◌, ◌<◌, Ok, Err, Some, [], ◌∷◌, length, IfOk, IfErr, IfSome, IsOk, IsErr, IsErrAnd, OnOk, OnErr};
ghost use Rattle.ndc_port.specs.Bytes.{Appends, AppendsFront};
ghost use Rattle.ndc_port.specs.Fault.{Rose};
ghost use Rattle.ndc_model_sets.specs.Sound.{IsSound};
ghost use Rattle.ndc_model_sets.specs.View.{view_of};
ghost use Rattle.ndc_dump.specs.Read.{dump_of};
ghost use Rattle.ndc_dump.specs.declared.error.PrintError.TheVariants as print;
ghost use Rattle.ndc_dump.specs.Input.{most_bytes};
ghost use Rattle.ndc_dump.specs.Telling.{IsAmong, Tells};
ghost use Rattle.ndc_tool_top.specs.Show.{PrintsAsRead, ShowFault, Shows, ShowsFront, StopsShowing, shown_text};
ghost use Rattle.ndc_tool_top.specs.Top.{LeavesAfter, LeavesSource, TellsDumpError, TellsSomeCause, status_line};

use crate::fault::Fault;
use crate::output::end;
use ndc_dump::{Dump, MOST_BYTES, PrintError, dump_text, read_input, tree_text};
use ndc_event::OutOfMemory;
use ndc_port::{Sink, Source, write_all};
use std::alloc::Global;

/// How a dump is shown.
#[derive(Clone, Copy, Debug, PartialEq, Eq)]
pub enum ShownAs {
    /// Printed again from its batches.
    Dump,
    /// As the tree of its workflow.
    Tree,
}

/// What is shown of a dump.
#[tactic(auto, unfolding(crate::specs::Show::shown_text))]
fn shown_text(alloc: Global, how: ShownAs, dump: &Dump) -> Result<Vec<u8>, OutOfMemory>
    requires shown { dump.now.view ≡ view_of dump.now.view.batches }
    requires sound { IsSound dump.now.view.batches }
    ensures { IfOk result (λ text. text.items ≡ shown_text how dump.now) }
{
    match how {
        ShownAs::Dump => dump_text(alloc, &dump.domain, &dump.workflow, &dump.view),
        ShownAs::Tree => tree_text(alloc, &dump.domain, &dump.workflow, &dump.view),
    }
}

/// Writes what is shown of a dump in one piece.
fn write_shown<K: Sink>(
    alloc: Global,
    how: ShownAs,
    dump: &Dump,
    out: &mut K,
) -> Result<(), PrintError>
    requires shown { dump.now.view ≡ view_of dump.now.view.batches }
    requires sound { IsSound dump.now.view.batches }
    ensures whole { OnOk result (Appends (K.written out.old) (K.written out.new) (shown_text how dump.now)) }
    ensures front { OnErr result (AppendsFront (K.written out.old) (K.written out.new) (shown_text how dump.now)) }
    ensures cause { result ≡ Err print.Write → Rose (K.faults out.old) (K.faults out.new) }
    ensures unwritten { result ≡ Err print.Memory → K.written out.new ≡ K.written out.old }
    ensures count { K.faults out.old ≤ K.faults out.new }
{
    let text = shown_text(alloc, how, dump)?;
    write_all(out, text.as_slice())?;
    Ok(())
}

/// Reads a dump and shows it.
fn show<S: Source, K: Sink>(
    alloc: Global,
    how: ShownAs,
    source: &mut S,
    out: &mut K,
) -> Result<(), Fault>
    ensures done { OnOk result (Shows how (S.left source.old) (S.left source.new) (K.written out.old) (K.written out.new)) }
    ensures as_read { OnOk result (PrintsAsRead how (S.left source.old) (K.written out.old) (K.written out.new)) }
    ensures end { OnOk result (IfSome (S.left source.old) (λ _. S.left source.new ≡ Some [])) }
    ensures rest { IfErr result (λ fault. LeavesAfter fault (S.left source.old) (S.left source.new)) }
    ensures fault { IfErr result (ShowFault how
        (record { left = S.left source.old; source_faults = S.faults source.old; written = K.written out.old; out_faults = K.faults out.old })
        (record { left = S.left source.new; source_faults = S.faults source.new; written = K.written out.new; out_faults = K.faults out.new })) }
    ensures source_count { S.faults source.old ≤ S.faults source.new }
    ensures out_count { K.faults out.old ≤ K.faults out.new }
{
    let dump = read_input(alloc, source, MOST_BYTES)?;
    match write_shown(alloc, how, &dump, out) {
        Ok(()) => Ok(()),
        Err(PrintError::Write) => Err(Fault::Write),
        Err(PrintError::Memory) => Err(Fault::Memory),
    }
}

/// Reads a dump and shows it, tells of the fault that comes, and answers the status.
pub fn show_input<S: Source, K: Sink, E: Sink>(
    alloc: Global,
    how: ShownAs,
    source: &mut S,
    out: &mut K,
    err: &mut E,
) -> u8
    ensures among { IsAmong result (0 ∷ 4 ∷ 5 ∷ 6 ∷ 7 ∷ 8 ∷ []) }
    ensures done { result ≡ 0 → Shows how (S.left source.old) (S.left source.new) (K.written out.old) (K.written out.new) }
    ensures as_read { result ≡ 0 → PrintsAsRead how (S.left source.old) (K.written out.old) (K.written out.new) }
    ensures silent { result ≡ 0 → E.written err.new ≡ E.written err.old }
    ensures dump { result ≡ 7 → IfSome (S.left source.old) (λ bytes. (length bytes ≤ most_bytes)
        × IsErrAnd (dump_of bytes) (TellsDumpError (E.written err.old) (E.written err.new) (E.faults err.old) (E.faults err.new))) }
    ensures cause { result ≡ 7 → TellsSomeCause (E.written err.old) (E.written err.new) (E.faults err.old) (E.faults err.new) }
    ensures rest { LeavesSource result (S.left source.old) (S.left source.new) }
    ensures read { result ≡ 4 → Rose (S.faults source.old) (S.faults source.new) }
    ensures write { result ≡ 5 → Rose (K.faults out.old) (K.faults out.new) }
    ensures limit { result ≡ 6 → IfSome (S.left source.old) (λ bytes. most_bytes < length bytes) }
    ensures told { IfSome (status_line result) (Tells (E.written err.old) (E.written err.new) (E.faults err.old) (E.faults err.new)) }
    ensures above { IfSome (S.left source.old) (λ bytes. most_bytes < length bytes → IsAmong result (4 ∷ 6 ∷ 8 ∷ [])) }
    ensures no_dump { IfSome (S.left source.old) (λ bytes. length bytes ≤ most_bytes → IsErr (dump_of bytes) → IsAmong result (4 ∷ 7 ∷ 8 ∷ [])) }
    ensures whole_dump { IfSome (S.left source.old) (λ bytes. length bytes ≤ most_bytes → IsOk (dump_of bytes) → IsAmong result (0 ∷ 4 ∷ 5 ∷ 8 ∷ [])) }
    ensures early { IsAmong result (2 ∷ 3 ∷ 4 ∷ 6 ∷ 7 ∷ []) → K.written out.new ≡ K.written out.old }
    ensures unwritten { result ≡ 8 → K.written out.new ≡ K.written out.old }
    ensures stopped { result ≡ 5 → StopsShowing how (S.left source.old) (K.written out.old) (K.written out.new) }
    ensures front { result ≢ 0 → ShowsFront how (S.left source.old) (K.written out.old) (K.written out.new) }
{
    match show(alloc, how, source, out) {
        Ok(()) => 0,
        Err(fault) => end(fault, err),
    }
}
