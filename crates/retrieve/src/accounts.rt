use crate::wording::{Amount, Characters, Day, Many};
use fields::Key;
use recalling::turned_over;
use rows::{AccountRow, MovementRow, Statement};
use values::{AccountHead, Turnover};

/// Tells each account of a statement.
pub fn tell_accounts(rt: &HostRuntime, statement: &Statement) -> anyhow::Result<()> {
    // The rest is carried from account to account: an iterator that does so is no plainer.
    let mut movements = statement.movements;
    for account in statement.accounts {
        let (own, rest) = movements.split_at(movements.len().min(account.movements as usize));
        tell_account(rt, account, own)?;
        movements = rest;
    }
    Ok(())
}

fn tell_account(rt: &HostRuntime, account: &AccountRow, own: &[MovementRow]) -> anyhow::Result<()> {
    let AccountHead {
        number,
        period,
        initial,
        currency,
        ..
    } = account.head;
    let name = Characters(&account.name);
    println!(rt; "")?;
    println!(rt;
        "  account {:04} {:04} {:010}, {name}",
        number.entity, number.office, number.number
    )?;
    println!(rt;
        "    {} to {}, currency {currency:03}",
        Day(period.first),
        Day(period.last)
    )?;
    let turned = turned_over(account, own);
    tell_amount(
        rt,
        "initial balance",
        Amount(initial.key, u128::from(initial.amount)),
    )?;
    tell_side(rt, "debit", Key::Debit, turned.debits)?;
    tell_side(rt, "credit", Key::Credit, turned.credits)?;
    let key = account.final_key.unwrap_or(Key::Credit);
    tell_amount(rt, "final balance", Amount(key, turned.final_amount()))?;
    let movements = Many(own.len() as u64, "movement");
    let texts = Many(texts_of(own), "text");
    println!(rt; "    {movements}, {texts}")?;
    Ok(())
}

fn tell_side(rt: &HostRuntime, name: &'static str, key: Key, side: Turnover) -> anyhow::Result<()> {
    let label = Many(u64::from(side.count), name).to_string(rt.alloc())?;
    tell_amount(rt, label.as_str(), Amount(key, u128::from(side.total)))
}

fn tell_amount(rt: &HostRuntime, label: &str, amount: Amount) -> anyhow::Result<()> {
    let amount = amount.to_string(rt.alloc())?;
    println!(rt; "    {label:<18}{amount:>18}")?;
    Ok(())
}

// How many texts the movements have.
fn texts_of(own: &[MovementRow]) -> u64 {
    own.iter().fold(
        0u64,
        |texts, row| texts.saturating_add(u64::from(row.texts)),
    )
}
