// ARC's public calls, on a lent area of any words: those of `core_calls`, by the rules of ARC.
#![tactic(auto)]

ghost use Rattle.std.specs.Prelude.{◌≡◌};
ghost use Rattle.rules.specs.declared.Kind.TheVariants as kinds;

use core_calls::{Arc, Core, Policy};
use rules::Kind;

pub type ArcCore = Core<Arc>;

// The kind of ArcCore's calls. The contract says of the name itself that it stands for ARC, whatever the body is: so what
// `core_calls` says over a policy it says of ArcCore by the rules of ARC.
pub fn kind() -> Kind
    ensures { (⟦<ArcCore as Policy>⟧.KIND ≡ kinds.Arc) × (result ≡ kinds.Arc) }
{
    ArcCore::kind()
}
