// What holds of the texts of all messages.
ghost use Rattle.std.specs.Prelude.{◌≡◌, ◌↔◌, ℕ, List, Ok, IsTrue};
ghost use Rattle.std.specs.List.{list_all};
ghost use Rattle.ndc_model_cells.specs.declared.message.Message.{Message};
ghost use Rattle.ndc_node_messages.specs.Read.{message_at};
ghost use Rattle.ndc_node_messages.specs.Text.{message_text, MessageFits};
ghost use Rattle.ndc_node_shapes.specs.Bytes.{is_plain};

/// A text is read as a message exactly where it is the text of that message, whose batches are whole and whose history
/// rises in its ranges.
pub fn read_where_printed()
    ensures { (message : Message) (bytes : List ℕ) → (message_at bytes ≡ Ok message)
        ↔ (MessageFits message × (bytes ≡ message_text message)) }
{}

/// No message has two texts.
pub fn one_text_of_a_message()
    ensures { (message : Message) (bytes more : List ℕ) → message_at bytes ≡ Ok message
        → message_at more ≡ Ok message → bytes ≡ more }
{}

/// No text is that of two messages.
pub fn one_message_of_a_text()
    ensures { (one other : Message) → MessageFits one → MessageFits other
        → message_text one ≡ message_text other → one ≡ other }
{}

/// The text of a message has the bytes from space to `~` alone, as texts in a frame have.
pub fn messages_fit_in_frames()
    ensures { (message : Message) → MessageFits message
        → IsTrue (list_all is_plain (message_text message)) }
{}
