// ARC (RULES 5; src/policy/arc.rs): what only ARC has in an insert: ghost lists are trimmed before a plain miss, and the
// oldest is the victim. The calls are in `inner_calls`.
#![tactic(auto)]

ghost use Rattle.std.specs.Prelude.{◌≡◌, ◌+◌, length};
ghost use Rattle.rules.specs.State.{in_all};
ghost use Rattle.rules.specs.Ghosts.{drop_oldest};
ghost use Rattle.rules.specs.Arc.{trimmed, replace};
ghost use Rattle.area.specs.Stored.{Stored};
ghost use Rattle.contracts.specs.Policy.{arc_policy};
ghost use Rattle.stages.specs.Common.{HasResident};
ghost use Rattle.stages.specs.Stages.{Stage, Chooses};
ghost use Rattle.arc.specs.Insert.{arc_in};

use rules::Side;
use stages::Victim;

// The ghost lists before a plain miss.
pub fn trim(area: &mut [u64], c: usize)
    requires { Stored c area.old }
    ensures { Stage arc_policy c area.old area.new (trimmed (arc_in c area.old)) }
{
    let l1 = l1_len(area, c);
    if c <= l1 {
        evict_lru(area, c, Side::First);
        return;
    }
    let all = total(area, c);
    let d = 2 * c;
    if d <= all {
        evict_lru(area, c, Side::Second);
        return;
    }
}

// The oldest page of a ghost list is dropped, if there is one.
fn evict_lru(area: &mut [u64], c: usize, i: Side)
    requires { Stored c area.old }
    ensures { Stage arc_policy c area.old area.new (drop_oldest i (arc_in c area.old)) }
{
    let n = store::recorded(area, c, i);
    if n == 0 {
        return;
    }
    store::drop_oldest(area, c, i);
}

// The pages of T1 and B1, and those of all four lists.
fn l1_len(area: &[u64], c: usize) -> usize
    requires { Stored c area.now }
    ensures { result ≡ length (arc_in c area.now).T1 + length (arc_in c area.now).B1 }
{
    let t1 = store::listed(area, c, Side::First);
    let b1 = store::recorded(area, c, Side::First);
    t1 + b1
}

fn total(area: &[u64], c: usize) -> usize
    requires { Stored c area.now }
    ensures { result ≡ in_all (arc_in c area.now) }
{
    let t = stages::residents(area, c);
    let b1 = store::recorded(area, c, Side::First);
    let b2 = store::recorded(area, c, Side::Second);
    t + b1 + b2
}

// The victim: the oldest of T1 or T2. One step, and nothing is changed.
pub fn oldest(area: &[u64], c: usize, in_b2: bool) -> Victim
    requires { HasResident c area.now }
    ensures { Chooses arc_policy replace c area.now area.now in_b2 result }
{
    let side = stages::turn(area, c, in_b2);
    let slot = store::last(area, c, side);
    Victim {
        side,
        slot,
        steps: 1,
    }
}
