// What messages are answered that arrive inside a line, as a law.
ghost use Rattle.std.specs.Prelude.{ℕ, ◌<◌};
ghost use Rattle.ndc_script_types.specs.WellFormed.{IsWellFormedAct, IsWellFormedHeader};
ghost use Rattle.ndc_script_types.specs.declared.script.Act.{Act as Asked};
ghost use Rattle.ndc_script_types.specs.declared.script.Header.{Header as Head};
ghost use Rattle.ndc_laws_program.specs.Inside.{AnswersInside};
ghost use Rattle.ndc_model.specs.Facts.{IsReached};
ghost use Rattle.ndc_model.specs.World.{World};

/// Each message that arrives inside a line, `work`, `resend`, `bootstrap`, `settle` or `mergeletters`, is answered by what
/// has arrived when its turn comes, in the world in which the line's jobs before it are done: it is known exactly where its
/// batch has arrived, and put off exactly where the batch is new and lacks an ancestor, with the first missing key told.
pub fn messages_inside_a_line_are_answered_by_what_has_arrived()
    ensures { (header : Head) (lines : ℕ) (w : World) (line : Asked) → IsWellFormedHeader header → IsWellFormedAct header line → lines < 100000 → IsReached header lines w → AnswersInside header line w }
{}
