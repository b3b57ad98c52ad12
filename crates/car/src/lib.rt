// CAR (RULES 6; src/policy/car.rs): what only CAR has in an insert, the sweep that finds the victim. The calls are in
// `inner_calls`.
#![tactic(auto)]

ghost use Rattle.rules.specs.Car.{replace};
ghost use Rattle.contracts.specs.Policy.{car_policy};
ghost use Rattle.stages.specs.Common.{HasResident};
ghost use Rattle.stages.specs.Stages.{Chooses};
ghost use Rattle.car.specs.Replace.{StepIs};

use rules::Side;
use stages::Victim;

// Steps until one meets the victim. Each step before clears a bit, and so there is an end.
pub fn sweep(area: &mut [u64], c: usize, in_b2: bool) -> Victim
    requires { HasResident c area.old }
    ensures { Chooses car_policy replace c area.old area.new in_b2 result }
{
    let mut steps: u64 = 1;
    loop {
        if let Some((side, slot)) = step(area, c, in_b2) {
            return Victim { side, slot, steps };
        }
        steps += 1;
    }
}

// One step: a referenced page at the hand loses its bit and goes to the end of the frequent clock; another is the victim,
// with its side and its slot.
fn step(area: &mut [u64], c: usize, in_b2: bool) -> Option<(Side, usize)>
    requires { HasResident c area.old }
    ensures { StepIs c area.old area.new in_b2 result }
{
    let i = stages::turn(area, c, in_b2);
    let e = store::first(area, c, i);
    if store::referenced(area, c, e) {
        store::to_end(area, c, e);
        return None;
    }
    Some((i, e))
}
