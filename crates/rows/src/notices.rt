ghost use Rattle.std.specs.Prelude.{◌≡◌};
ghost use Rattle.rows.specs.Layers.{layer_number};

/// The layer that a refusal comes from.
#[derive(Clone, Copy, PartialEq, Eq, Debug)]
pub enum Layer {
    /// The carrier has a fault.
    Carrier = 1,
    /// The reading refuses a record, or its close.
    Reading = 2,
    /// The tables, or the output that they are written to.
    Tables = 3,
}

impl Layer {
    /// The number of this layer.
    // A method: `layer.number()` says what `u8::from(layer)` leaves open.
    pub fn number(self) -> u8
        ensures { result ≡ layer_number self }
    {
        self as u8
    }
}

/// What a refusal tells. The record number and the place are 0 where it has none, and so is the volume above the
/// carrier.
#[derive(Clone, Copy, PartialEq, Eq, Debug)]
pub struct Notice {
    pub layer: Layer,
    /// A number and no enum: notices tell the refusals of every crate, and the faults of any carrier.
    pub number: u16,
    // 0 here and below, and no Option, where there is none: the rules tell 0 there.
    pub record: u32,
    pub place: usize,
    pub volume: u16,
}
