ghost use Rattle.std.specs.Prelude.{◌≡◌, ◌^◌, ◌<◌, true};
ghost use Rattle.values.specs.Balances.{side, owed, added_to, one_more, begun, turned as turned_by, turned_capped, counts_in_limit, stays_in_limit, key_fits, final_amount};

use crate::parts::{AccountHead, OpenAccount, Turnover};
use fields::Key;

/// The most that fourteen digits spell: no total is above it, and no balance further from zero.
pub const MOST: u128 = 99_999_999_999_999;

/// The most debits, and the most credits, of an account.
pub const MOST_MOVEMENTS: u32 = 99_999;

// What an amount with a key adds on a side.
fn added_to(side: Key, key: Key, amount: u64) -> u64
    ensures { result ≡ added_to side key amount }
{
    if key == side { amount } else { 0 }
}

impl Turnover {
    /// One movement more. A count or a total that has no room for it stays at the largest.
    pub fn with(self, amount: u64) -> Turnover
        ensures { result ≡ one_more self amount }
    {
        Turnover {
            count: self.count.saturating_add(1),
            total: self.total.saturating_add(amount),
        }
    }
}

impl OpenAccount {
    /// An account that has just begun: no movement has come.
    pub fn new(head: AccountHead) -> OpenAccount
        ensures { result ≡ begun head }
    {
        OpenAccount {
            head,
            debits: Turnover::default(),
            credits: Turnover::default(),
        }
    }

    /// This account after a movement. In the limits that is exact; past them a count or a total stays at the largest.
    // A key and an amount, and no `Balance`: what a movement turns is none.
    pub fn turned(self, key: Key, amount: u64) -> OpenAccount
        ensures value { result ≡ turned_capped self key amount }
        ensures exact { counts_in_limit self key ≡ true → stays_in_limit self key amount ≡ true → result ≡ turned_by self key amount }
    {
        match key {
            Key::Debit => OpenAccount {
                debits: self.debits.with(amount),
                ..self
            },
            Key::Credit => OpenAccount {
                credits: self.credits.with(amount),
                ..self
            },
        }
    }

    /// The side that a movement turns.
    pub fn side(&self, key: Key) -> Turnover
        ensures { result ≡ side self.now key }
    {
        match key {
            Key::Debit => self.debits,
            Key::Credit => self.credits,
        }
    }

    // A side with the initial balance, if it is on it: the credits are owed to the account, the debits by it.
    fn owed(&self, side: Key) -> u128
        ensures value { result ≡ owed self.now side }
        ensures bound { result < 2 ^ 65 }
    {
        let initial = self.head.initial;
        u128::from(added_to(side, initial.key, initial.amount)) + u128::from(self.side(side).total)
    }

    /// Whether one movement more on a side stays within the most.
    pub fn counts_in_limit(&self, key: Key) -> bool
        ensures { result ≡ counts_in_limit self.now key }
    {
        self.side(key).count < MOST_MOVEMENTS
    }

    /// Whether the total of its side and the balance stay in their limits after a movement.
    pub fn stays_in_limit(&self, key: Key, amount: u64) -> bool
        ensures { result ≡ stays_in_limit self.now key amount }
    {
        let owed_to = self.owed(Key::Credit) + u128::from(added_to(Key::Credit, key, amount));
        let owed_by = self.owed(Key::Debit) + u128::from(added_to(Key::Debit, key, amount));
        u128::from(self.side(key).total) + u128::from(amount) <= MOST
            && owed_to.abs_diff(owed_by) <= MOST
    }

    /// Whether the final balance can have a key: with a balance of zero either is right.
    pub fn key_fits(&self, key: Key) -> bool
        ensures { result ≡ key_fits self.now key }
    {
        match key {
            Key::Debit => self.owed(Key::Credit) <= self.owed(Key::Debit),
            Key::Credit => self.owed(Key::Debit) <= self.owed(Key::Credit),
        }
    }

    /// How far the final balance is from zero.
    pub fn final_amount(&self) -> u128
        ensures { result ≡ final_amount self.now }
    {
        self.owed(Key::Credit).abs_diff(self.owed(Key::Debit))
    }
}
