// The clerk: which transaction numbers are live, and the last log number. Its state is a small struct that goes in by
// value; a ruling is the state afterwards, or the refusal.
#![tactic(auto)]

ghost use Rattle.std.specs.Prelude.{◌≡◌, ◌+◌, ◌≤◌, ◌<◌, true, false, IfOk, IfErr};
ghost use Rattle.rules.specs.declared.Bad.TheVariants.{Number};
ghost use Rattle.rules.specs.declared.Refusal.TheVariants.{Argument};
ghost use Rattle.clerk.specs.Rule.{is_number, begins, aborts, commits};

use rules::{Bad, Refusal};

// Number t, 1 to 32, is live where slot t - 1 is 1.
#[repr(C)]
#[derive(Clone, Copy, Debug, PartialEq, Eq)]
pub struct Clerk {
    pub live: [u8; 32],
    pub last: u32,
}

// The slot of a transaction number.
#[tactic(auto, using(crate::proofs::Laws::too_low, crate::proofs::Laws::too_high, crate::proofs::Laws::number_in_range))]
fn slot_of(x: u32) -> Result<usize, Refusal>
    ensures ok { IfOk result (λ at. (is_number x ≡ true) × (at + 1 ≡ x) × (at < 32)) }
    ensures err { IfErr result (λ why. (is_number x ≡ false) × (why ≡ Argument Number)) }
{
    if x < 1 || 32 < x {
        return Err(Refusal::Argument(Bad::Number));
    }
    Ok(x as usize - 1)
}

impl Clerk {
    // Makes the number live.
    #[tactic(auto, unfolding(crate::specs::Rule::begins))]
    pub fn begin(mut self, x: u32) -> Result<Clerk, Refusal>
        ensures { result ≡ begins self x }
    {
        let at = slot_of(x)?;
        if self.live[at] == 1 {
            return Err(Refusal::Live);
        }
        self.live[at] = 1;
        Ok(self)
    }

    // Ends the transaction.
    #[tactic(auto, unfolding(crate::specs::Rule::aborts))]
    pub fn abort(mut self, x: u32) -> Result<Clerk, Refusal>
        ensures { result ≡ aborts self x }
    {
        let at = slot_of(x)?;
        if self.live[at] != 1 {
            return Err(Refusal::NotLive);
        }
        self.live[at] = 0;
        Ok(self)
    }

    // Ends the transaction and takes k log numbers for its records.
    #[tactic(auto, unfolding(crate::specs::Rule::commits))]
    pub fn commit(mut self, x: u32, k: u32) -> Result<Clerk, Refusal>
        ensures { result ≡ commits self x k }
    {
        let at = slot_of(x)?;
        if self.live[at] != 1 {
            return Err(Refusal::NotLive);
        }
        if 4294967295 - self.last < k {
            return Err(Refusal::NumbersEnd);
        }
        self.live[at] = 0;
        self.last += k;
        Ok(self)
    }
}
