//! Laws of reading: a text is read as it is read piece by piece.
ghost use Rattle.std.specs.Prelude.{◌≡◌, ◌++◌, ℕ, List, Ok, true, false};
ghost use Rattle.ndc_script_types.specs.declared.script.Header.{Header};
ghost use Rattle.ndc_script_types.specs.declared.script.Line.{Line};
ghost use Rattle.ndc_script_types.specs.declared.script.Script.{Script};
ghost use Rattle.ndc_script_read.specs.Body.{lines_read, script_of};
ghost use Rattle.ndc_script_read.specs.Pieces.{begins_cluster, is_whole, with_front, with_rest};
ghost use Rattle.ndc_script_words.specs.Text.{kept_from, line_after, line_behind, text_lines};

/// What is read of a text whose prefix is read as a script, its header at least, is that script with the lines that are
/// read of the rest. The prefix ends with a line end, and the rest does not go on with cluster lines.
pub fn a_script_is_read_piece_by_piece()
    ensures { (one two : List ℕ) (script : Script) → is_whole one ≡ true
        → begins_cluster (kept_from (line_after one) (text_lines two)) ≡ false
        → script_of one ≡ Ok script
        → script_of (one ++ two)
        ≡ with_rest script (lines_read script.header (line_after one) two) }
{}

/// Lines that are read piece by piece are those that are read at once: each piece ends with a line end, and holds whole
/// bursts where it is read. A refusal is the same, that of the piece that is refused.
pub fn lines_are_read_piece_by_piece()
    ensures { (header : Header) (first : ℕ) (one two : List ℕ) (front : List Line)
        → is_whole one ≡ true → lines_read header first one ≡ Ok front
        → lines_read header first (one ++ two)
        ≡ with_front front (lines_read header (line_behind first one) two) }
{}
