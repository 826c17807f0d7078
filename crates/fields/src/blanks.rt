ghost use Rattle.std.specs.Prelude.{◌≡◌, length, replicate};
ghost use Rattle.fields.specs.Blank.{blank};

const SPACE: u8 = b' ';

/// Whether a field holds nothing but spaces.
pub fn is_blank(field: &[u8]) -> bool
    ensures { result ≡ blank field.now }
{
    field.iter().all(|byte| *byte == SPACE)
}

/// Fills a field with spaces.
pub fn write_blank(field: &mut [u8])
    ensures { field.new ≡ replicate (length field.old) 32 }
{
    field.fill(SPACE);
}
