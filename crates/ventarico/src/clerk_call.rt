// The clerk on a state that the caller lends: 0, or the refusal's number with the state as it was.
ghost use Rattle.std.specs.Prelude.{◌≡◌};
ghost use Rattle.clerk.specs.Rule.{begins, aborts, commits};
ghost use Rattle.ventarico.specs.Said.{Settled};

use clerk::Clerk;
use rules::Refusal;

// The clerk afterwards, or as it was; and the answer.
fn settle(c: &mut Clerk, ruled: Result<Clerk, Refusal>) -> u8
    ensures { Settled ruled c.old result c.new }
{
    match ruled {
        Ok(after) => {
            *c = after;
            0
        }
        Err(why) => why.number(),
    }
}

// Makes the number live.
pub fn ventarico_clerk_begin(c: &mut Clerk, x: u32) -> u8
    ensures { Settled (begins c.old x) c.old result c.new }
{
    let ruled = (*c).begin(x);
    settle(c, ruled)
}

// Ends the transaction.
pub fn ventarico_clerk_abort(c: &mut Clerk, x: u32) -> u8
    ensures { Settled (aborts c.old x) c.old result c.new }
{
    let ruled = (*c).abort(x);
    settle(c, ruled)
}

// Ends the transaction and takes k log numbers for its records.
pub fn ventarico_clerk_commit(c: &mut Clerk, x: u32, k: u32) -> u8
    ensures { Settled (commits c.old x k) c.old result c.new }
{
    let ruled = (*c).commit(x, k);
    settle(c, ruled)
}
