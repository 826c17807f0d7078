use charset::{CodePage, CodeTable};
use media::{Framing, Image, Volume};
use std::alloc::{AllocError, Global};

/// The records of a small file. Its first account, of modality 3, has two movements, of which the first has two texts
/// and an equivalent; its second, of modality 1, has one movement, and ends at zero with the key of a debit.
pub const RECORDS: [[u8; 80]; 11] = [
    *b"119999000112345678902603012603312000000002500009783CDAD. PE\xA5A MAYOR 12          ",
    *b"22    0001260303260303030001000000000482500000000001000000001016LUZ ESCALERA    ",
    *b"2301RECIBO DE LUZ                         FEBRERO                               ",
    *b"2302CONTADOR 4711                                                               ",
    *b"240184000000000052110                                                           ",
    *b"22    0002260305260305040002000000000120000000000000000000002021CUOTA 2A        ",
    *b"3399990001123456789000001000000000482500000100000000012000200000000213750978    ",
    *b"119999000200000000552603012603311000000000010008401GARAJE SUR                   ",
    *b"22        260315260316020002000000000010000000000000                            ",
    *b"3399990002000000005500000000000000000000000100000000001000100000000000000840    ",
    *b"88999999999999999999000010                                                      ",
];

/// The file.
pub fn file(heap: Global, framing: Framing) -> Result<Vec<u8>, AllocError> {
    let mut bytes = Vec::new(heap);
    for record in &RECORDS {
        bytes.extend_from_slice(record)?;
        bytes.extend_from_slice(framing.line_end())?;
    }
    Ok(bytes)
}

/// Puts a byte at a place, if there is one.
pub fn put(bytes: &mut [u8], place: usize, byte: u8) {
    if let Some(changed) = bytes.get_mut(place) {
        *changed = byte;
    }
}

/// A volume in page 850.
pub fn volume(bytes: &[u8], framing: Framing) -> Volume<'_> {
    Volume::new(bytes, framing, CodeTable::from(CodePage::Page850))
}

/// An image in page 850.
pub fn image(bytes: &mut [u8], framing: Framing) -> Image<'_> {
    Image::new(bytes, framing, CodeTable::from(CodePage::Page850))
}
