ghost use Rattle.std.specs.Prelude.{◌≡◌};
ghost use Rattle.media.specs.Copying.{Copies};

use crate::carriers::{Carrier, Ending};
use crate::framing::RECORD_LENGTH;
use crate::outputs::{Output, PutRefusal};

/// A carrier that was copied to its end.
#[derive(Clone, Copy, PartialEq, Eq, Debug)]
pub struct Copied {
    pub records: usize,
    pub ending: Ending,
}

/// Copies the records left on a carrier to an output, in order.
/// Where no place is left for a record, that record is drawn and not copied, and those after it stay.
pub fn copy<C: Carrier, O: Output>(carrier: &mut C, output: &mut O) -> Result<Copied, PutRefusal>
    ensures copies { Copies (C.Carrier.records carrier.old) (C.Carrier.ending carrier.old) (O.Output.put output.old) (O.Output.places output.old) (C.Carrier.records carrier.new) (O.Output.put output.new) (O.Output.places output.new) result }
    ensures ending { C.Carrier.ending carrier.new ≡ C.Carrier.ending carrier.old }
    ensures volumes { C.Carrier.volumes carrier.new ≡ C.Carrier.volumes carrier.old }
{
    let places = output.places();
    let mut characters = [b' '; RECORD_LENGTH];
    // A match and no `?` on a fault: it is how the carrier ended, and no error of the copy.
    let ending = loop {
        match carrier.draw(&mut characters) {
            Ok(true) => output.put(&characters)?,
            Ok(false) => break Ok(()),
            Err(fault) => break Err(fault),
        }
    };
    let records = places - output.places();
    Ok(Copied { records, ending })
}
