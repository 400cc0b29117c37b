/// The two forms of a batch text.
#[derive(Clone, Copy, Debug, PartialEq, Eq)]
pub enum TextForm {
    /// Without carriers.
    One,
    /// With a key `carrier` where the batch has one.
    Two,
}
