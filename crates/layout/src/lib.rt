// What stands where in the lent areas (docs/LAYOUT.md), read and written by name. Each promise is the number that the bytes hold,
// or the bytes with that number in its place and no other changed.
#![tactic(auto)]

ghost use Rattle.std.specs.Prelude.{◌≡◌, length};
ghost use Rattle.rules.specs.Lent.{fixed_length};
ghost use Rattle.layout.specs.Read.{ParamsRead};

pub mod read;

use rules::Params;

// fixed
pub const FIXED_LENGTH: usize = 20;

pub const SIZE_AT: usize = 0;

pub const PAGES_AT: usize = 4;

pub const FRAMES_AT: usize = 8;

pub const ONLINE_SIZE_AT: usize = 12;

pub const LOG_SIZE_AT: usize = 16;

// marks: L, K, n; a stamp and a dirty number for each page
pub const LAST_AT: usize = 0;

pub const CLOSED_AT: usize = 4;

pub const LOGGED_AT: usize = 8;

pub const STAMPS_AT: usize = 12;

// tables: m, u, the live set (number t at LIVE_AT + t, from 1 on), the use order; an entry for each page behind it
pub const COUNT_AT: usize = 0;

pub const USED_AT: usize = 2;

pub const LIVE_AT: usize = 2;

pub const LIVES_AT: usize = 3;

pub const ORDER_AT: usize = 35;

// The parameters that `fixed` holds.
pub fn params_of(fixed: &[u8]) -> Params
    requires { length fixed.now ≡ fixed_length }
    ensures { ParamsRead fixed.now result }
{
    Params {
        size: word::load(fixed, SIZE_AT, 4),
        pages: word::load(fixed, PAGES_AT, 4),
        frames: word::load(fixed, FRAMES_AT, 4),
        online: word::load(fixed, ONLINE_SIZE_AT, 4),
        log: word::load(fixed, LOG_SIZE_AT, 4),
    }
}
