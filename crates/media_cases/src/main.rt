// Cases of code tables, carriers and outputs: prints what each gives, to be compared.
#![tactic(auto)]

mod joins;
mod outputs;
mod tables;
mod volumes;

use std::io;

fn main(rt: HostRuntime) -> io::Result<()> {
    tables::show(&rt)?;
    volumes::show(&rt)?;
    joins::show(&rt)?;
    outputs::show(&rt)
}
