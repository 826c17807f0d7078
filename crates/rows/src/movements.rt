use fields::{Date, Key};
use values::{Equivalent, Movement};

/// A movement: what its record says, how many texts it has, and its equivalent in another currency, where it has one.
#[derive(Clone, Copy, PartialEq, Eq, Debug)]
pub struct MovementRow {
    pub movement: Movement,
    pub reference_2: [u8; 16],
    pub texts: u32,
    pub equivalent: Option<Equivalent>,
}

/// What a movement row can hold before it is filled.
pub const UNUSED_MOVEMENT: MovementRow = MovementRow {
    movement: Movement {
        origin: None,
        operation: Date { digits: 0 },
        value: Date { digits: 0 },
        common: 0,
        own: 0,
        key: Key::Debit,
        amount: 0,
        document: 0,
        reference: None,
    },
    reference_2: [b' '; 16],
    texts: 0,
    equivalent: None,
};
