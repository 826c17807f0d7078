ghost use Rattle.std.specs.Prelude.{◌≡◌, ℕ, ◌<◌, [], ◌∷◌, ◌++◌, length};
ghost use Rattle.std.specs.Fn.{FnOnceReturnsAtMut, FnOnceTakesAtMut};
ghost use Rattle.std.specs.Result.{result_err};
ghost use Rattle.table.specs.Rows.{held, LastOf, Fills, revised};
ghost use Rattle.rows.specs.Kept.{movements_of, texts_of};
ghost use Rattle.rows.specs.Tables.{rows_in, room_in, Holds};
ghost use Rattle.archiving.specs.Entering.{account_row, movement_row, text_row, with_entry, full, lacking, Whole, granted};
ghost use Rattle.reading.specs.Taken.{kind_told};

use reading::Entry;
use rows::{AccountRow, MovementRow, TableKind, Tables, TextRow};
use table::Table;
use values::{AccountHead, Movement};

// The row of an account that begins.
fn account_row(head: AccountHead, name: &[u8]) -> AccountRow
    requires { length name.now ≡ 26 }
    ensures { result ≡ account_row head name.now }
{
    AccountRow {
        head,
        name: name.try_into().unwrap(),
        movements: 0,
        final_key: None,
    }
}

// The row of a movement that begins.
fn movement_row(movement: Movement, reference: &[u8]) -> MovementRow
    requires { length reference.now ≡ 16 }
    ensures { result ≡ movement_row movement reference.now }
{
    MovementRow {
        movement,
        reference_2: reference.try_into().unwrap(),
        texts: 0,
        equivalent: None,
    }
}

// The row of a text.
fn text_row(first: &[u8], second: &[u8]) -> TextRow
    requires first { length first.now ≡ 38 }
    requires second { length second.now ≡ 38 }
    ensures { result ≡ text_row first.now second.now }
{
    TextRow {
        first: first.try_into().unwrap(),
        second: second.try_into().unwrap(),
    }
}

// A row more in a table of this kind, if one is free.
fn push<T: Copy>(table: &mut Table<'_, T>, row: T, kind: TableKind) -> Result<(), TableKind>
    ensures answer { result_err result ≡ full kind (length (held table.old.rows.now table.old.filled)) (length table.old.rows.now) }
    ensures rows { Fills table.old.rows.now table.new.rows.now table.new.filled (granted result (held table.old.rows.now table.old.filled ++ (row ∷ [])) (held table.old.rows.now table.old.filled)) }
    ensures lent { table.new.rows.ghost_name ≡ table.old.rows.ghost_name }
{
    table.push(row).map_err(|_| kind)
}

// Changes the last row, where there is one.
fn revise_last<T: Copy, F: FnOnce(&mut T)>(table: &mut Table<'_, T>, change: F)
    requires { (last : ℕ × T) → LastOf table.old.rows.now table.old.filled (Some last) → FnOnceTakesAtMut F.FnOnce change last.1 }
    ensures rows { (changed : T → T) → ((row result : T) → FnOnceReturnsAtMut F.FnOnce change row tt result → result ≡ changed row) → Fills table.old.rows.now table.new.rows.now table.new.filled (revised changed (held table.old.rows.now table.old.filled)) }
    ensures lent { table.new.rows.ghost_name ≡ table.old.rows.ghost_name }
{
    if let Some((last, mut row)) = table.last() {
        change(&mut row);
        table.set(last, row);
    }
}

/// Enters what a reading tells of a record, or tells which table has no free row for it.
pub(crate) fn enter(tables: &mut Tables, entry: &Entry<'_>) -> Result<(), TableKind>
    requires whole { Whole entry.now }
    requires movements { movements_of (rows_in tables.old).accounts < 4294967295 }
    requires texts { texts_of (rows_in tables.old).movements < 4294967295 }
    ensures answer { result_err result ≡ lacking (room_in tables.old) (rows_in tables.old) (kind_told entry.now) }
    ensures tables { Holds tables.old tables.new (granted result (with_entry entry.now (rows_in tables.old)) (rows_in tables.old)) }
{
    match *entry {
        Entry::Account(head, name) => {
            let row = account_row(head, name);
            push(&mut tables.accounts, row, TableKind::Accounts)?;
        }
        Entry::Movement(movement, reference) => {
            let row = movement_row(movement, reference);
            push(&mut tables.movements, row, TableKind::Movements)?;
            revise_last(&mut tables.accounts, |row| row.movements += 1);
        }
        Entry::Text(_, first, second) => {
            let row = text_row(first, second);
            push(&mut tables.texts, row, TableKind::Texts)?;
            revise_last(&mut tables.movements, |row| row.texts += 1);
        }
        Entry::Equivalent(equivalent) => {
            revise_last(
                &mut tables.movements,
                |row| row.equivalent = Some(equivalent),
            );
        }
        Entry::AccountEnd(account_end) => {
            let key = account_end.last.key;
            revise_last(&mut tables.accounts, |row| row.final_key = Some(key));
        }
        Entry::FileEnd(_) => {}
    }
    Ok(())
}
