// The kinds of columns and the width of a row of each: a decision over the kind's number, in which equal widths stand together.
// Kept: kinds are numbers, since 01 has "kinds as numbers" and 02, K2 asks for "a match on the kind with ranges".
// Stands for the data types that `create_in_progress_array` of src/coalesce.rs tells apart by `downcast_primitive`.
#![tactic(auto)]

ghost use Rattle.std.specs.Prelude.{◌≡◌};
ghost use Rattle.kinds.specs.Kind.{width_at, is_view};

// The width of the kind with this number. 02, K2: "The width lookup is to be written as a decision over ranges of kind numbers."
pub fn width_of(kind: u32) -> Option<u32>
    ensures { result ≡ width_at kind }
{
    match kind {
        1 | 5 => Some(1), // Int8, UInt8
        2 | 6 | 9 => Some(2), // Int16, UInt16, Float16
        3 | 7 | 10 | 12 => Some(4), // Int32, UInt32, Float32, Date32
        4 | 8 | 11 | 13..=15 => Some(8), // Int64, UInt64, Float64, Date64, Timestamp, Duration
        16 | 18..=19 => Some(16), // Decimal128, Utf8View, BinaryView
        17 => Some(32), // Decimal256
        _ => None,
    }
}

// Whether the kind is one of the two views, Utf8View and BinaryView.
pub fn is_view(kind: u32) -> bool
    ensures { result ≡ is_view kind }
{
    kind == 18 || kind == 19
}
