// What the words of the program are, as laws.
ghost use Rattle.std.specs.Prelude.{◌≡◌, ℕ, true, None, List, codes};
ghost use Rattle.std.specs.List.{list_any};
ghost use Rattle.std.specs.Str.{bytes_eq};
ghost use Rattle.ndc_tool_words.specs.Words.{asked_of};

/// Words with `--` among them are refused.
#[tactic(auto, using(crate::proofs::Dashes::dashes_refused))]
pub fn words_with_dashes_are_refused()
    ensures { (words : List (List ℕ)) → list_any (λ word. bytes_eq word (codes "--")) words ≡ true
        → asked_of words ≡ None }
{}
