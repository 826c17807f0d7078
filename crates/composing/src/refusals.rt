/// A number has more digits than its field: the first column of the leftmost such field.
#[derive(Clone, Copy, PartialEq, Eq, Debug)]
pub struct Unfit {
    pub column: u8,
}
