use fields::{Date, Key, Modality};

/// What names an account.
#[derive(Clone, Copy, PartialEq, Eq, Debug)]
pub struct AccountNumber {
    pub entity: u32,
    pub office: u32,
    pub number: u64,
}

/// The days that a statement speaks of.
#[derive(Clone, Copy, PartialEq, Eq, Debug)]
pub struct Period {
    pub first: Date,
    pub last: Date,
}

/// A balance in hundredths; debit is negative.
#[derive(Clone, Copy, PartialEq, Eq, Debug)]
pub struct Balance {
    pub key: Key,
    pub amount: u64,
}

/// How many movements an account has on one side, and their total.
#[derive(Clone, Copy, PartialEq, Eq, Debug, Default)]
pub struct Turnover {
    pub count: u32,
    pub total: u64,
}

/// The numbers of an account record.
#[derive(Clone, Copy, PartialEq, Eq, Debug)]
pub struct AccountHead {
    pub number: AccountNumber,
    pub period: Period,
    pub initial: Balance,
    pub currency: u32,
    pub modality: Modality,
}

/// What stands for the head of an account where there is none.
pub const NO_HEAD: AccountHead = AccountHead {
    number: AccountNumber {
        entity: 0,
        office: 0,
        number: 0,
    },
    period: Period {
        first: Date { digits: 0 },
        last: Date { digits: 0 },
    },
    initial: Balance {
        key: Key::Debit,
        amount: 0,
    },
    currency: 0,
    modality: Modality::First,
};

/// An account whose end has not come: its head, and its movements so far.
#[derive(Clone, Copy, PartialEq, Eq, Debug)]
pub struct OpenAccount {
    pub head: AccountHead,
    pub debits: Turnover,
    pub credits: Turnover,
}

/// The numbers of a movement record.
#[derive(Clone, Copy, PartialEq, Eq, Debug)]
pub struct Movement {
    pub origin: Option<u32>,
    pub operation: Date,
    pub value: Date,
    pub common: u32,
    pub own: u32,
    pub key: Key,
    pub amount: u64,
    pub document: u64,
    pub reference: Option<u64>,
}

/// The amount of a movement in the currency that it came from.
#[derive(Clone, Copy, PartialEq, Eq, Debug)]
pub struct Equivalent {
    pub currency: u32,
    pub amount: u64,
}

/// The numbers of an account end.
#[derive(Clone, Copy, PartialEq, Eq, Debug)]
pub struct AccountEnd {
    pub number: AccountNumber,
    pub debits: Turnover,
    pub credits: Turnover,
    pub last: Balance,
    pub currency: u32,
}
