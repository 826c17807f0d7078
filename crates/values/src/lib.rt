// The values of a statement's records: account numbers, periods, balances, movements; and the counts, totals and
// balances of an account with their limits, which specs/Balances.antt defines.
#![tactic(auto)]

pub mod balances;
pub mod parts;

pub use parts::{
    AccountEnd, AccountHead, AccountNumber, Balance, Equivalent, Movement, OpenAccount, Period,
    Turnover,
};
