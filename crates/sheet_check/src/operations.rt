// The operations of a sheet: which fields of a record each uses.
ghost use Rattle.std.specs.Prelude.{◌≡◌, ◌≤◌};
ghost use Rattle.sheet.specs.Operations.{row_of, uses_of, last_operation};

use sheet::operations::{Holds, Uses};

// A row for each operation, 1 to 13.
const OPERATIONS: [Uses; 13] = [
    // 1 out
    Uses {
        clause: false,
        x: Holds::Operand,
        y: Holds::Nothing,
        t: false,
    },
    // 2 follow
    Uses {
        clause: false,
        x: Holds::Operand,
        y: Holds::Operand,
        t: false,
    },
    // 3 precede
    Uses {
        clause: false,
        x: Holds::Operand,
        y: Holds::Operand,
        t: false,
    },
    // 4 into
    Uses {
        clause: false,
        x: Holds::Operand,
        y: Holds::Operand,
        t: false,
    },
    // 5 clear
    Uses {
        clause: false,
        x: Holds::Operand,
        y: Holds::Nothing,
        t: false,
    },
    // 6 hold
    Uses {
        clause: false,
        x: Holds::Nothing,
        y: Holds::Nothing,
        t: true,
    },
    // 7 passivate
    Uses {
        clause: false,
        x: Holds::Nothing,
        y: Holds::Nothing,
        t: false,
    },
    // 8 wait
    Uses {
        clause: false,
        x: Holds::Nothing,
        y: Holds::Operand,
        t: false,
    },
    // 9 cancel
    Uses {
        clause: false,
        x: Holds::Operand,
        y: Holds::Nothing,
        t: false,
    },
    // 10 activate: y and t by the clause
    Uses {
        clause: true,
        x: Holds::Operand,
        y: Holds::Operand,
        t: true,
    },
    // 11 reactivate: y and t by the clause
    Uses {
        clause: true,
        x: Holds::Operand,
        y: Holds::Operand,
        t: true,
    },
    // 12 if head x is empty go to record y
    Uses {
        clause: false,
        x: Holds::Operand,
        y: Holds::RecordNumber,
        t: false,
    },
    // 13 accum number x by t
    Uses {
        clause: false,
        x: Holds::AccumulatorNumber,
        y: Holds::Nothing,
        t: true,
    },
];

// The table's row of an operation.
fn row_of(operation: u8) -> Uses
    requires le_operation { 1 ≤ operation }
    requires operation_le_last_operation { operation ≤ last_operation }
    ensures { result ≡ row_of operation }
{
    OPERATIONS[operation as usize - 1]
}

// The fields that a record of this operation and clause uses.
pub(crate) fn uses_of(operation: u8, clause: u8) -> Uses
    requires le_operation { 1 ≤ operation }
    requires operation_le_last_operation { operation ≤ last_operation }
    ensures { result ≡ uses_of operation clause }
{
    let row = row_of(operation);
    if !row.clause {
        return row;
    }
    if 4 < clause {
        Uses {
            clause: true,
            x: row.x,
            y: row.y,
            t: false,
        }
    } else {
        Uses {
            clause: true,
            x: row.x,
            y: Holds::Nothing,
            t: 0 < clause,
        }
    }
}
