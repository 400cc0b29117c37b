//! Laws of the script language.
ghost use Rattle.std.specs.Prelude.{◌≡◌, ◌≤◌, ℕ, List, Ok};
ghost use Rattle.ndc_script_types.specs.declared.script.Script.{Script};
ghost use Rattle.ndc_script_read.specs.Body.{script_of};
ghost use Rattle.ndc_script.specs.Alike.{SayTheSame, cluster_names, word_lines};
ghost use Rattle.ndc_script.specs.Generate.{generated_script};
ghost use Rattle.ndc_script_types.specs.Print.{script_text, script_lines, renumbered};
ghost use Rattle.ndc_script_types.specs.WellFormed.{IsWellFormed};

/// A well-formed script is read again from what is printed of it: the same
/// script, with the numbers that its lines, and those of its bursts, have in print.
pub fn printed_scripts_are_read_again()
    ensures { (script : Script) → IsWellFormed script → script_of (script_text script)
        ≡ Ok (renumbered script) }
{}

/// Bytes that are read as a script are its own text, but for spaces, lines that are skipped, and the clusters of a
/// `register` line: their other lines have the same words, one by one, and a `register` line names the same clusters,
/// all where it names none.
pub fn what_is_read_says_what_is_printed()
    ensures { (bytes : List ℕ) (script : Script) → script_of bytes ≡ Ok script
        → SayTheSame (cluster_names script.header) (word_lines bytes) (script_lines script) }
{}

/// No two scripts have one text: where their texts are equal, well-formed scripts are one, but for the numbers of their
/// lines, which they have in print.
pub fn no_two_scripts_have_one_text()
    ensures { (one two : Script) → IsWellFormed one → IsWellFormed two
        → script_text one ≡ script_text two → renumbered one ≡ renumbered two }
{}

/// A generated script of at most 99,000 lines is well-formed.
pub fn generated_scripts_are_well_formed()
    ensures { (count seed : ℕ) → count ≤ 99000 → IsWellFormed (generated_script count seed) }
{}
