// Document 01 whole, as definitions in specs/, which the coalescer's functions are proved equal to; and the types that they share
// with the code. From arrow-select 60.0.0, src/coalesce/byte_view.rs: what `Source` decides.
#![tactic(auto)]

use state::BatchCoalescer;

// 01: "column records of 32 bytes with no header, eight little-endian u32 words".
#[derive(Clone, Copy)]
pub struct ColumnRecord {
    // Kept: 01, "Where the Rust must change shape": "kinds as numbers"; a batch that is lent may have any.
    pub kind: u32,
    pub values: u32,
    pub validity: u32,
    pub first: u32,
    pub list: u32,
    pub count: u32,
    pub spare: u32,
    pub spare2: u32,
}

// The three ways of a column of views.
#[derive(Clone, Copy)]
pub enum Way {
    Copied,
    Attached,
    Compacted,
}

// A fault of a batch: its number, 2 to 7, the column and the row where it is, 0 where it is none's.
#[derive(Clone, Copy)]
pub struct Fault {
    pub number: u32,
    pub column: u32,
    pub row: u32,
}

// What a step leaves: the state, and the number of its refusal, or 0.
#[derive(Clone, Copy)]
pub struct Step {
    pub state: BatchCoalescer,
    pub number: u32,
}
