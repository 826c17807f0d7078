// Cases of reading into tables, of checking tables and of writing them: prints what each gives, to be compared.
#![tactic(auto)]

mod answers;
mod carriers;
mod changes;
mod checks;
mod longest;
mod outputs;
mod reads;
mod rooms;
mod sample;

fn main(rt: HostRuntime) -> anyhow::Result<()> {
    reads::show(&rt)?;
    carriers::show(&rt)?;
    outputs::show(&rt)?;
    checks::show(&rt)?;
    longest::show(&rt)
}
