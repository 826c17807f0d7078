/// A digit that stands for no key, or for no modality.
#[derive(Clone, Copy, PartialEq, Eq, Debug)]
pub struct UnknownDigit;
