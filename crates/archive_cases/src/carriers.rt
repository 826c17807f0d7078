use crate::answers::show_carrier;
use crate::sample::{file, put, volume};
use media::{Framing, Joined};
use std::alloc::{AllocError, Global};
use std::fmt;

/// The sample with a space behind it is cut to a length, and the byte at a place is changed.
// media_cases has cases of this shape over bytes of its own; a crate for both is no plainer.
#[derive(Clone, Copy)]
struct Damage(usize, usize, u8);

impl fmt::Display for Damage {
    fn fmt<W: fmt::Write>(&self, f: &mut fmt::Formatter<W>) -> fmt::Result {
        let Damage(length, place, byte) = *self;
        write!(f, "{length} {place} {byte}")
    }
}

impl Damage {
    // The sample after this damage.
    fn sample(self, heap: Global, framing: Framing) -> Result<Vec<u8>, AllocError> {
        let Damage(length, place, byte) = self;
        let mut bytes = file(heap, framing)?;
        bytes.push(b' ')?;
        put(&mut bytes, place, byte);
        bytes.truncate(length);
        Ok(bytes)
    }
}

const LINES: [Damage; 12] = [
    Damage(902, 0, b'1'),
    Damage(902, 0, b'a'),
    Damage(902, 413, b'a'),
    Damage(902, 899, b'a'),
    Damage(902, 80, 10),
    Damage(902, 491, 13),
    Damage(902, 901, 32),
    Damage(81, 0, b'1'),
    Damage(450, 0, b'1'),
    Damage(901, 0, b'1'),
    Damage(903, 0, b'1'),
    Damage(450, 83, b'4'),
];

const BLOCKS: [Damage; 8] = [
    Damage(880, 0, b'1'),
    Damage(880, 0, b'a'),
    Damage(880, 405, b'a'),
    Damage(880, 879, b'a'),
    Damage(79, 0, b'1'),
    Damage(479, 0, b'1'),
    Damage(879, 0, b'1'),
    Damage(881, 0, b'1'),
];

// Where the blocks are divided into three volumes, and their damage.
const JOINED: [(usize, usize, Damage); 14] = [
    (400, 640, Damage(880, 0, b'1')),
    (400, 640, Damage(880, 0, b'a')),
    (400, 640, Damage(880, 399, b'a')),
    (400, 640, Damage(880, 400, b'a')),
    (400, 640, Damage(880, 485, b'a')),
    (400, 640, Damage(880, 639, b'a')),
    (400, 640, Damage(880, 640, b'a')),
    (400, 640, Damage(880, 720, b'a')),
    (400, 640, Damage(880, 879, b'a')),
    (400, 640, Damage(879, 0, b'1')),
    (400, 640, Damage(881, 0, b'1')),
    (420, 640, Damage(880, 0, b'1')),
    (400, 630, Damage(880, 0, b'1')),
    (0, 400, Damage(880, 400, b'a')),
];

pub fn show(rt: &HostRuntime) -> anyhow::Result<()> {
    println!(rt; "lines: length, place, byte")?;
    show_damaged(rt, Framing::Lines, &LINES)?;
    println!(rt; "blocks: length, place, byte")?;
    show_damaged(rt, Framing::Blocks, &BLOCKS)?;
    println!(rt; "three volumes of blocks, joined: divided at; length, place, byte")?;
    for (first, second, damage) in JOINED {
        let bytes = damage.sample(rt.alloc(), Framing::Blocks)?;
        print!(rt; "{first} {second}; {damage}: ")?;
        show_joined(rt, &bytes, first, second)?;
    }
    Ok(())
}

fn show_damaged(rt: &HostRuntime, framing: Framing, cases: &[Damage]) -> anyhow::Result<()> {
    for damage in cases {
        let bytes = damage.sample(rt.alloc(), framing)?;
        print!(rt; "{damage}: ")?;
        show_carrier(rt, &mut volume(&bytes, framing))?;
    }
    Ok(())
}

fn show_joined(rt: &HostRuntime, bytes: &[u8], first: usize, second: usize) -> anyhow::Result<()> {
    let (front, back) = bytes.split_at(bytes.len().min(second));
    let (front, middle) = front.split_at(front.len().min(first));
    let rest = Joined {
        first: volume(middle, Framing::Blocks),
        second: volume(back, Framing::Blocks),
    };
    let mut holding = Joined {
        first: volume(front, Framing::Blocks),
        second: rest,
    };
    show_carrier(rt, &mut holding)
}
