ghost use Rattle.std.specs.Prelude.{◌≡◌, [], Some, None};
ghost use Rattle.std.specs.Iterator.{YieldsFirst};
ghost use Rattle.recalling.specs.Remaining.{attached_left, remaining, left};
ghost use Rattle.rows.specs.Kept.{rows_lent};
ghost use Rattle.recalling.specs.Statements.{before_end};

use crate::account_ends::compose_end;
use crate::attachments::Attachments;
use crate::fronts::split_front;
use composing::{Unfit, compose_account, compose_movement};
use rows::{AccountRow, MovementRow, Statement, TextRow};

/// An account that has begun: its row, its own movements, and those of them still to come.
#[derive(Clone, Copy)]
pub(crate) struct Begun<'a> {
    row: &'a AccountRow,
    own: &'a [MovementRow],
    left: &'a [MovementRow],
}

/// The accounts of a statement, composed record by record: the rows still to come, the account that has begun, and
/// what is still to come of its last movement.
#[derive(Clone, Copy)]
pub(crate) struct Composition<'a> {
    accounts: &'a [AccountRow],
    movements: &'a [MovementRow],
    texts: &'a [TextRow],
    begun: Option<Begun<'a>>,
    attached: Attachments<'a>,
}

impl<'a> Composition<'a> {
    /// All records before the file end are still to come.
    pub(crate) fn new(statement: &Statement<'a>) -> Composition<'a>
        ensures { remaining result ≡ before_end (rows_lent statement.now) }
    {
        Composition {
            accounts: statement.accounts,
            movements: statement.movements,
            texts: statement.texts,
            begun: None,
            attached: Attachments::new(&[], None),
        }
    }

    // The next account begins.
    fn begin(&mut self) -> Option<Result<[u8; 80], Unfit>>
        requires outside { self.old.begun ≡ None }
        requires detached { attached_left self.old.attached ≡ [] }
        ensures { YieldsFirst left self.old result self.new }
    {
        let (row, accounts) = self.accounts.split_first()?;
        let (own, movements) = split_front(self.movements, row.movements);
        self.accounts = accounts;
        self.movements = movements;
        self.begun = Some(Begun {
            row,
            own,
            left: own,
        });
        Some(compose_account(&row.head, &row.name))
    }

    // The next movement of the account begins, or the account ends.
    fn go_on(&mut self, begun: Begun<'a>) -> Result<[u8; 80], Unfit>
        requires inside { self.old.begun ≡ Some begun }
        requires detached { attached_left self.old.attached ≡ [] }
        ensures { YieldsFirst left self.old (Some result) self.new }
    {
        match begun.left.split_first() {
            Some((row, left)) => {
                let (texts, behind) = split_front(self.texts, row.texts);
                self.texts = behind;
                self.begun = Some(Begun { left, ..begun });
                self.attached = Attachments::new(texts, row.equivalent);
                compose_movement(&row.movement, &row.reference_2)
            }
            None => {
                self.begun = None;
                compose_end(begun.row, begun.own)
            }
        }
    }
}

impl<'a> Iterator for Composition<'a> {
    ghost use Rattle.std.specs.Iterator.{YieldsFirst, item_count};
    ghost use Rattle.recalling.specs.Remaining.{left};

    type Item = Result<[u8; 80], Unfit>;

    ghost next_gives = { YieldsFirst left };

    ghost remaining = { item_count left };

    /// Composes the next record, if one is still to come.
    fn next(&mut self) -> Option<Result<[u8; 80], Unfit>> {
        if let Some(composed) = self.attached.next() {
            return Some(composed);
        }
        match self.begun {
            Some(begun) => Some(self.go_on(begun)),
            None => self.begin(),
        }
    }
}
