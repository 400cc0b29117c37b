//! Comments, which stand beside the answers of a script's lines.
ghost use Rattle.std.specs.Prelude.{◌≡◌, ◌++◌, ℕ, List, OnOk};
ghost use Rattle.ndc_probe.specs.Comments.{AreComments, commented};

use ndc_event::OutOfMemory;

/// Appends a text as comments: each of its lines after `# `.
pub(crate) fn push_comments(text: &mut Vec<u8>, bytes: &[u8]) -> Result<(), OutOfMemory>
    ensures { OnOk result (text.new.items ≡ text.old.items ++ commented bytes.now) }
{
    let mut begins = true;
    for byte in bytes {
        if begins {
            text.extend_from_slice(b"# ")?;
        }
        text.push(*byte)?;
        begins = *byte == b'\n';
    }
    if !begins {
        text.extend_from_slice(b"\n")?;
    }
    Ok(())
}

/// Whatever the text, it is then whole lines that begin with `# `.
pub fn what_is_told_beside_is_comments_alone()
    ensures { (text : List ℕ) → AreComments (commented text) }
{}
