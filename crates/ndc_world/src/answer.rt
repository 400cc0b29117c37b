use ndc_index::Seen;
use std::marker::Model;

/// What a line answers, and what it makes learned.
#[derive(Drop)]
pub struct Answer {
    /// The text of its answer, after its number; of a burst, the answers of all its lines.
    pub text: Vec<u8>,
    /// What became learned, in the order of being told.
    pub seen: Vec<Seen>,
}

impl Model for Answer {
    ghost use Rattle.ndc_world_steps.specs.Told.{AnswerValue};

    ghost Value = { AnswerValue };

    ghost view = { λ answer. record { text = answer.text.items; seen = answer.seen.items } };
}
