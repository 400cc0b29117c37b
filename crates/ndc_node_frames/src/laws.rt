//! What holds of the texts of all frames.
ghost use Rattle.std.specs.Prelude.{◌≡◌, ◌↔◌, ℕ, List, Ok, IsTrue};
ghost use Rattle.std.specs.List.{list_all};
ghost use Rattle.ndc_node_shapes.specs.Bytes.{is_plain};
ghost use Rattle.ndc_node_frames.specs.Frames.{frame_at, frame_text, seen_of, FrameFits};
ghost use Rattle.ndc_node_frames.specs.declared.frame.Frame.{Frame};

/// A text is read as a frame exactly where it is the text of that frame, which fits: its numbers are in their ranges, its
/// names are names, and the texts in it have the bytes from space to `~` alone.
pub fn read_where_printed()
    ensures { (frame : Frame) (bytes : List ℕ) → (frame_at bytes ≡ Ok (seen_of frame))
        ↔ (FrameFits frame × (bytes ≡ frame_text frame)) }
{}

/// No frame has two texts.
pub fn one_text_of_a_frame()
    ensures { (frame : Frame) (bytes more : List ℕ) → frame_at bytes ≡ Ok (seen_of frame)
        → frame_at more ≡ Ok (seen_of frame) → bytes ≡ more }
{}

/// No text is that of two frames.
pub fn one_frame_of_a_text()
    ensures { (one other : Frame) → FrameFits one → FrameFits other
        → frame_text one ≡ frame_text other → one ≡ other }
{}

/// The text of a frame has the bytes from space to `~` alone, so it is one line.
pub fn a_frame_is_one_line()
    ensures { (frame : Frame) → FrameFits frame → IsTrue (list_all is_plain (frame_text frame)) }
{}
