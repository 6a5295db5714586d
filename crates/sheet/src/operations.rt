// Which fields of a record an operation uses.

// What a field x or y holds.
#[derive(Clone, Copy)]
pub enum Holds {
    // 0: it is not used.
    Nothing,
    // A linkage, or 65,536 and above: current, or the first member of a head.
    Operand,
    // The number of a record, 0 to R.
    RecordNumber,
    // The number of an accumulator, 1 to 64.
    AccumulatorNumber,
}

// The fields that a record uses: clause and t or not, x and y as what.
#[derive(Clone, Copy)]
pub struct Uses {
    pub clause: bool,
    pub x: Holds,
    pub y: Holds,
    pub t: bool,
}
