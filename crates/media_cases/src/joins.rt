ghost use Rattle.std.specs.Prelude.{max, []};
ghost use Rattle.media.specs.Endings.{Ending};

use crate::volumes::show_copy;
use charset::{CodePage, CodeTable};
use media::{Carrier, Ending, Fault, Framing, Joined, Volume};
use std::io;

// A carrier of many volumes without records.
#[derive(Clone, Copy)]
struct Empty {
    volumes: u16,
    ending: Ending,
}

impl Carrier for Empty {
    ghost records = { λ e. [] };

    ghost ending = { λ e. e.ending };

    ghost volumes = { λ e. max e.volumes 1 };

    fn volumes(&self) -> u16 {
        self.volumes.max(1)
    }

    fn draw(&mut self, _into: &mut [u8; 80]) -> Result<bool, Fault> {
        self.ending.map(|_| false)
    }
}

fn clean(volumes: u16) -> Empty {
    Empty {
        volumes,
        ending: Ok(()),
    }
}

fn broken(volumes: u16, volume: u16) -> Empty {
    Empty {
        volumes,
        ending: Err(Fault {
            number: 99,
            place: 7,
            volume,
        }),
    }
}

pub fn show(rt: &HostRuntime) -> io::Result<()> {
    println!(rt; "joined")?;
    let pairs = [
        (clean(1), clean(1)),
        (clean(65534), clean(1)),
        (clean(65535), clean(1)),
        (clean(65535), clean(65535)),
        (clean(65534), broken(9, 1)),
        (clean(65534), broken(9, 2)),
        (broken(3, 2), broken(9, 5)),
    ];
    for (first, second) in pairs {
        show_copy(rt, &mut Joined { first, second })?;
    }
    show_volumes(rt)
}

// One record and then two, clean or with a fault in either.
fn show_volumes(rt: &HostRuntime) -> io::Result<()> {
    let good = [b' '; 160];
    let bad = [b' '; 81];
    let pairs = [
        (&good[..80], &good[..]),
        (&bad[..], &good[..]),
        (&good[..80], &bad[..]),
        (&good[..], &good[..]),
    ];
    for (first, second) in pairs {
        show_copy(
            rt,
            &mut Joined {
                first: blocks(first),
                second: blocks(second),
            },
        )?;
    }
    Ok(())
}

fn blocks(bytes: &[u8]) -> Volume<'_> {
    Volume::new(bytes, Framing::Blocks, CodeTable::from(CodePage::Page850))
}
