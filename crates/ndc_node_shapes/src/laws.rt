//! What holds of the texts of all shapes.
ghost use Rattle.std.specs.Prelude.{◌≡◌, ◌↔◌, ◌++◌, ℕ, List, [], true, Ok, IsTrue};
ghost use Rattle.std.specs.List.{list_all};
ghost use Rattle.ndc_node_shapes.specs.Bytes.{is_plain};
ghost use Rattle.ndc_node_shapes.specs.Fits.{Fits, is_object, is_sound};
ghost use Rattle.ndc_node_shapes.specs.Read.{read_of};
ghost use Rattle.ndc_node_shapes.specs.Shapes.{Shape, Value};
ghost use Rattle.ndc_node_shapes.specs.Objects.{object_at};
ghost use Rattle.ndc_node_shapes.specs.Text.{text_of};

/// A text is read as a value of a sound shape exactly where it is the text of that value, which fits the shape.
pub fn read_where_printed()
    ensures { (shape : Shape) (value : Value shape) (bytes : List ℕ) → is_sound shape ≡ true
        → (read_of shape bytes ≡ Ok (value, []))
        ↔ (Fits shape value × (bytes ≡ text_of shape value)) }
{}

/// No value has two texts.
pub fn one_text_of_a_value()
    ensures { (shape : Shape) (value : Value shape) (bytes more : List ℕ) → is_sound shape ≡ true
        → read_of shape bytes ≡ Ok (value, []) → read_of shape more ≡ Ok (value, [])
        → bytes ≡ more }
{}

/// No text is that of two values.
pub fn one_value_of_a_text()
    ensures { (shape : Shape) (one other : Value shape) → is_sound shape ≡ true → Fits shape one
        → Fits shape other
        → text_of shape one ≡ text_of shape other → one ≡ other }
{}

/// The text of a value has the bytes from space to `~` alone, so it is one line.
pub fn texts_are_plain()
    ensures { (shape : Shape) (value : Value shape) → is_sound shape ≡ true → Fits shape value
        → IsTrue (list_all is_plain (text_of shape value)) }
{}

/// The text of an object is cut out of what begins with it, whatever comes after; and what is cut out stands there.
pub fn objects_are_cut_out()
    ensures cut { (shape : Shape) (value : Value shape) (rest : List ℕ) → is_object shape ≡ true
        → is_sound shape ≡ true
        → Fits shape value → object_at (text_of shape value ++ rest)
        ≡ Ok (text_of shape value, rest) }
    ensures stands { (left text rest : List ℕ) → object_at left ≡ Ok (text, rest)
        → left ≡ text ++ rest }
{}
