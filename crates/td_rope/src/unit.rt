/// What the length of a text and the places in it are counted in, by the Unicode Standard: its code points, or the code
/// units of an encoding form.
#[derive(Clone, Copy, Debug, PartialEq, Eq)]
pub enum Unit {
    /// Code units of UTF-8, which are bytes: C and Rust count them.
    Byte,
    /// Code units of UTF-16: JavaScript counts them, and the Language Server Protocol where nothing else is agreed on.
    Utf16,
    /// Code points: Python counts them.
    CodePoint,
}
