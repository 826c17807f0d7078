use anyhow::anyhow;
use charset::{CodePage, CodeTable};
use media::{Framing, Image, Volume};
use std::fmt;
use std::str::FromStr;

/// How a volume is written: how its records follow one another, and its code page.
#[derive(Clone, Copy)]
pub struct Way {
    pub framing: Framing,
    pub page: CodePage,
}

impl FromStr for Way {
    type Err = anyhow::Error;

    fn from_str(word: &str) -> anyhow::Result<Way> {
        named(word).ok_or_else(|| {
            anyhow!("before each file say lines-850, lines-284, blocks-850 or blocks-284")
        })
    }
}

// The way that a word names, if any.
fn named(word: &str) -> Option<Way> {
    let (framing, page) = word.split_once('-')?;
    let framing = match framing {
        "lines" => Framing::Lines,
        "blocks" => Framing::Blocks,
        _ => return None,
    };
    let page = match page {
        "850" => CodePage::Page850,
        "284" => CodePage::Page284,
        _ => return None,
    };
    Some(Way { framing, page })
}

impl fmt::Display for Way {
    fn fmt<W: fmt::Write>(&self, f: &mut fmt::Formatter<W>) -> fmt::Result {
        let framing = match self.framing {
            Framing::Lines => "lines",
            Framing::Blocks => "blocks",
        };
        let page = match self.page {
            CodePage::Page850 => "page 850",
            CodePage::Page284 => "EBCDIC page 284",
        };
        write!(f, "{framing} in {page}")
    }
}

impl Way {
    /// How disks are written.
    pub const DISK: Way = Way {
        framing: Framing::Lines,
        page: CodePage::Page850,
    };

    /// How tapes are written.
    pub const TAPE: Way = Way {
        framing: Framing::Blocks,
        page: CodePage::Page284,
    };

    /// How many bytes so many records take.
    pub fn length(self, records: u32) -> usize {
        self.framing.stride().saturating_mul(records as usize)
    }

    /// A volume over bytes that are written this way.
    pub fn volume(self, bytes: &[u8]) -> Volume<'_> {
        Volume::new(bytes, self.framing, CodeTable::from(self.page))
    }

    /// An image over bytes that will be written this way.
    pub fn image(self, bytes: &mut [u8]) -> Image<'_> {
        Image::new(bytes, self.framing, CodeTable::from(self.page))
    }
}
