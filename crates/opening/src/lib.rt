// The way from any words to an inner call: the state check, and the capacity of the cache that the words hold. Every
// public call starts here.
#![tactic(auto)]

ghost use Rattle.contracts.specs.Policy.{policy_of};
ghost use Rattle.opening.specs.Opening.{Opens};

use refusals::Refusal;
use rules::Kind;

// The capacity of the cache of that kind that the words hold, whatever they are, or refusal 3.
pub fn open(area: &[u64], kind: Kind) -> Result<usize, Refusal>
    ensures { Opens (policy_of kind).kind area.now result }
{
    let number = contracts::number(kind);
    if state_check::check(area, number) {
        let c = area[1] as usize;
        return Ok(c);
    }
    Err(Refusal::State)
}
