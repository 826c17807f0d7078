use crate::rooms::Room;
use crate::sample::put;
use fields::{Date, Key, Modality};
use rows::{AccountRow, MovementRow, TextRow};
use std::alloc::AllocError;
use values::Equivalent;

/// Another value in the row of an account.
#[derive(Clone, Copy, Debug)]
pub enum InAccount {
    Entity(u32),
    Office(u32),
    Number(u64),
    First(u32),
    Last(u32),
    InitialKey(Key),
    Initial(u64),
    Currency(u32),
    Mode(Modality),
    Name(usize, u8),
    Movements(u32),
    FinalKey(Option<Key>),
}

/// Another value in the row of a movement.
#[derive(Clone, Copy, Debug)]
pub enum InMovement {
    Origin(Option<u32>),
    Operation(u32),
    Value(u32),
    Common(u32),
    Own(u32),
    Side(Key),
    Amount(u64),
    Document(u64),
    Reference(Option<u64>),
    Second(usize, u8),
    Texts(u32),
    Converted(u32, u64),
}

/// A change of the sample's rows.
#[derive(Clone, Copy, Debug)]
pub enum Change {
    /// In the account at an index.
    Account(usize, InAccount),
    /// In the movement at an index.
    Movement(usize, InMovement),
    /// A byte of the two fields of a text.
    Text(usize, u8),
    /// How many accounts, movements and texts are lent.
    Lent(usize, usize, usize),
}

impl Room {
    /// Makes a change.
    pub fn change(&mut self, change: Change) -> Result<(), AllocError> {
        match change {
            Change::Account(index, change) => {
                if let Some(row) = self.rows.accounts.get_mut(index) {
                    change_account(row, change);
                }
            }
            Change::Movement(index, change) => {
                if let Some(row) = self.rows.movements.get_mut(index) {
                    change_movement(row, change);
                }
            }
            Change::Text(place, byte) => {
                if let Some(row) = self.rows.texts.first_mut() {
                    change_text(row, place, byte);
                }
            }
            Change::Lent(accounts, movements, texts) => {
                self.resize([accounts, movements, texts])?;
            }
        }
        Ok(())
    }
}

fn change_account(row: &mut AccountRow, change: InAccount) {
    match change {
        InAccount::Entity(entity) => row.head.number.entity = entity,
        InAccount::Office(office) => row.head.number.office = office,
        InAccount::Number(number) => row.head.number.number = number,
        InAccount::First(digits) => row.head.period.first = Date { digits },
        InAccount::Last(digits) => row.head.period.last = Date { digits },
        InAccount::InitialKey(key) => row.head.initial.key = key,
        InAccount::Initial(amount) => row.head.initial.amount = amount,
        InAccount::Currency(currency) => row.head.currency = currency,
        InAccount::Mode(modality) => row.head.modality = modality,
        InAccount::Name(place, byte) => put(&mut row.name, place, byte),
        InAccount::Movements(movements) => row.movements = movements,
        InAccount::FinalKey(key) => row.final_key = key,
    }
}

fn change_movement(row: &mut MovementRow, change: InMovement) {
    match change {
        InMovement::Origin(origin) => row.movement.origin = origin,
        InMovement::Operation(digits) => row.movement.operation = Date { digits },
        InMovement::Value(digits) => row.movement.value = Date { digits },
        InMovement::Common(common) => row.movement.common = common,
        InMovement::Own(own) => row.movement.own = own,
        InMovement::Side(key) => row.movement.key = key,
        InMovement::Amount(amount) => row.movement.amount = amount,
        InMovement::Document(document) => row.movement.document = document,
        InMovement::Reference(reference) => row.movement.reference = reference,
        InMovement::Second(place, byte) => put(&mut row.reference_2, place, byte),
        InMovement::Texts(texts) => row.texts = texts,
        InMovement::Converted(currency, amount) => {
            row.equivalent = Some(Equivalent { currency, amount });
        }
    }
}

// The places of the second field follow those of the first.
fn change_text(row: &mut TextRow, place: usize, byte: u8) {
    if place < 38 {
        put(&mut row.first, place, byte);
    } else {
        put(&mut row.second, place - 38, byte);
    }
}
