ghost use Rattle.std.specs.Prelude.{◌+◌, ◌^◌, ◌<◌, length};

use rows::TextRow;
use values::Equivalent;

mod composing_on;

/// What is still to come of a movement that has begun: texts, after so many others, and its equivalent.
#[derive(Clone, Copy)]
pub(crate) struct Attachments<'a> {
    texts: &'a [TextRow],
    // A count beside the texts: an iterator that counts would have to be bounded by an invariant too, and is no plainer.
    came: u32,
    equivalent: Option<Equivalent>,
    ghost numbered: { came + length texts.now < 2 ^ 32 },
}
