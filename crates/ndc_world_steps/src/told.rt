ghost use Rattle.std.specs.Prelude.{◌≡◌};
ghost use Rattle.ndc_world_steps.specs.Told.{only_answer};

use ndc_index::Seen;
use ndc_world_answers::AnswerText;
use std::alloc::Global;
use std::marker::Model;

/// What a line tells: what it answers, before its number is put before it, and what it makes learned.
#[derive(Drop)]
pub struct Told {
    /// The text of its answer.
    pub text: AnswerText,
    /// What became learned, in the order of being told.
    pub seen: Vec<Seen>,
}

impl Model for Told {
    ghost use Rattle.ndc_world_steps.specs.Told.{AnswerValue};

    ghost Value = { AnswerValue };

    ghost view = { λ told. record { text = told.text; seen = told.seen.items } };
}

/// A line that makes nothing learned.
pub fn answered(alloc: Global, text: AnswerText) -> Told
    ensures { result ≡ only_answer text }
{
    Told {
        text,
        seen: Vec::new(alloc),
    }
}
