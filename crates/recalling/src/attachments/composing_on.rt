ghost use Rattle.std.specs.Prelude.{◌≡◌, ◌^◌, ◌<◌, ◌++◌, length};
ghost use Rattle.recalling.specs.Remaining.{attached};
ghost use Rattle.recalling.specs.Statements.{text_records, equivalent_records};

use crate::attachments::Attachments;
use composing::{Unfit, compose_equivalent, compose_text};
use rows::TextRow;
use values::Equivalent;

impl<'a> Attachments<'a> {
    /// Those of a movement with these texts and this equivalent, if any.
    pub(crate) fn new(texts: &'a [TextRow], equivalent: Option<Equivalent>) -> Attachments<'a>
        requires { length texts.now < 2 ^ 32 }
        ensures { attached result ≡ text_records 0 texts.now ++ equivalent_records equivalent }
    {
        Attachments {
            texts,
            came: 0,
            equivalent,
        }
    }
}

impl<'a> Iterator for Attachments<'a> {
    ghost use Rattle.std.specs.Iterator.{YieldsFirst, item_count};
    ghost use Rattle.recalling.specs.Remaining.{attached_left};

    type Item = Result<[u8; 80], Unfit>;

    ghost next_gives = { YieldsFirst attached_left };

    ghost remaining = { item_count attached_left };

    /// Composes the next record, if one is still to come.
    fn next(&mut self) -> Option<Result<[u8; 80], Unfit>> {
        if let Some((text, texts)) = self.texts.split_first() {
            let sequence = self.came + 1;
            *self = Attachments {
                texts,
                came: sequence,
                equivalent: self.equivalent,
            };
            return Some(compose_text(sequence, &text.first, &text.second));
        }
        let equivalent = self.equivalent.take()?;
        Some(compose_equivalent(&equivalent))
    }
}
