// The readings and faults of which tables of rows are made.

// A reading: vehicles seen, those of them sound, and busy milliseconds.
macro_rules! lane {
    ($seen:expr, $sound:expr, $busy_ms:expr) => {
        LaneReading {
            seen: $seen,
            sound: $sound,
            busy_ms: $busy_ms,
        }
    };
}

// A row that lacks this field.
macro_rules! missing {
    ($field:expr, $wanted:ident) => {
        Err(RowFault::Missing {
            field: $field,
            wanted: Wanted::$wanted,
        })
    };
}

// A row whose field of this number is malformed.
macro_rules! bad {
    ($field:expr, $wanted:ident) => {
        Err(RowFault::Bad {
            field: $field,
            wanted: Wanted::$wanted,
        })
    };
}

// A row with so many fields that this one is too many.
macro_rules! surplus {
    ($field:expr) => {
        Err(RowFault::Surplus { field: $field })
    };
}

pub(crate) use bad;
pub(crate) use lane;
pub(crate) use missing;
pub(crate) use surplus;
