// What a call on an area answers and leaves: specs/, over the policy. The code is the number of a kind alone.
#![tactic(auto)]

ghost use Rattle.std.specs.Prelude.{◌≡◌};
ghost use Rattle.contracts.specs.Policy.{policy_of};

use rules::Kind;

// The kind's number in the header of an area: 1 ARC, 2 CAR.
pub fn number(kind: Kind) -> u64
    ensures { result ≡ (policy_of kind).kind }
{
    match kind {
        Kind::Arc => 1,
        Kind::Car => 2,
    }
}
