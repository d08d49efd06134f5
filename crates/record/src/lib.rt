// Records as rows of bytes: where the fields of a row stand; rows as arrays, and the fields of one, in `row`. What a record
// does to a page is in crate `apply`.
#![tactic(auto)]

ghost use Rattle.std.specs.Prelude.{◌≡◌};
ghost use Rattle.record.specs.Record.{lesser};

pub mod row;

// The bytes of a row, and where its fields stand: a log row is the record alone, an online row has owner and number behind it.
pub const LOG_WIDTH: usize = 14;

pub const ONLINE_WIDTH: usize = 19;

pub const OFFSET_AT: usize = 2;

pub const LENGTH_AT: usize = 4;

pub const KIND_AT: usize = 5;

pub const VALUE_AT: usize = 6;

pub const OWNER_AT: usize = 14;

pub const NUMBER_AT: usize = 15;

// The smaller of two numbers, where 0 is none.
#[tactic(auto, unfolding(crate::specs::Record::lesser))]
pub fn lesser_of(a: u64, b: u64) -> u64
    ensures { result ≡ lesser a b }
{
    if a == 0 { b } else { a.min(b) }
}
