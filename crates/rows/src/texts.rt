/// A text of a movement, in its two fields.
#[derive(Clone, Copy, PartialEq, Eq, Debug)]
pub struct TextRow {
    pub first: [u8; 38],
    pub second: [u8; 38],
}

/// What a text row can hold before it is filled.
pub const UNUSED_TEXT: TextRow = TextRow {
    first: [b' '; 38],
    second: [b' '; 38],
};
