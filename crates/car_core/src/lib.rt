// CAR's public calls, on a lent area of any words: those of `core_calls`, by the rules of CAR.
#![tactic(auto)]

ghost use Rattle.std.specs.Prelude.{◌≡◌};
ghost use Rattle.rules.specs.declared.Kind.TheVariants as kinds;

use core_calls::{Car, Core, Policy};
use rules::Kind;

pub type CarCore = Core<Car>;

// The kind of CarCore's calls. The contract says of the name itself that it stands for CAR, whatever the body is: so what
// `core_calls` says over a policy it says of CarCore by the rules of CAR.
pub fn kind() -> Kind
    ensures { (⟦<CarCore as Policy>⟧.KIND ≡ kinds.Car) × (result ≡ kinds.Car) }
{
    CarCore::kind()
}
