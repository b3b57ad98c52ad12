// What ARC and CAR do alike, once for both, over the operations of `store`: the slot of a page, how many are resident,
// the ghost hit, and the list to replace from. `specs/Stages` has the stages of an insert over the policy, and `proofs`
// the laws that both policies' calls cite.
#![tactic(auto)]

ghost use Rattle.std.specs.Prelude.{◌≡◌, ◌<◌};
ghost use Rattle.rules.specs.State.{residents};
ghost use Rattle.rules.specs.Stages.{prefers_t1};
ghost use Rattle.area.specs.Stored.{Stored, state_in, Left};
ghost use Rattle.store.specs.Store.{HasGhost};
ghost use Rattle.stages.specs.Common.{SlotIs, AimIs, hit_at, TurnIs};

use rules::Side;

// How an insert goes on once the page is found: the resident of a slot is updated; or the page, which no list has any
// more, comes to the list of a side, after a hit in B2 or not. Flat, and no `Option` of a slot beside the rest: an enum
// inside an enum is kept in memory (D64).
#[derive(Clone, Copy)]
pub enum Way {
    Stays(usize),
    Comes(Side, bool),
}

// The victim of a replacement: its side, its slot, and the steps of the replacement, the one that puts it out among
// them.
#[derive(Clone, Copy)]
pub struct Victim {
    pub side: Side,
    pub slot: usize,
    pub steps: u64,
}

// The slot of the resident of page x, if there is one.
pub fn slot_of(area: &[u64], c: usize, x: u64) -> Option<usize>
    requires { Stored c area.now }
    ensures { SlotIs c area.now x result }
{
    match store::find(area, c, x) {
        store::Found::Resident(e) => Some(e),
        store::Found::InB1(_) | store::Found::InB2(_) | store::Found::Nowhere => None,
    }
}

// How many are resident.
pub fn residents(area: &[u64], c: usize) -> usize
    requires { Stored c area.now }
    ensures { result ≡ residents (state_in c area.now).lists }
{
    let t1 = store::listed(area, c, Side::First);
    let t2 = store::listed(area, c, Side::Second);
    t1 + t2
}

// A ghost hit of side i: the target moves, and the page leaves its ghost list.
pub fn adapt(area: &mut [u64], c: usize, i: Side, g: usize, x: u64)
    requires { HasGhost c area.old i g x }
    ensures { Left c area.old area.new (hit_at i x (state_in c area.old)) }
{
    let t = aim(area, c, i);
    store::forget(area, c, i, g, x);
    store::set_target(area, c, t);
}

// The target after it: one more, at most c, for B1; one less, at least 0, for B2.
fn aim(area: &[u64], c: usize, i: Side) -> u64
    requires { Stored c area.now }
    ensures { AimIs c area.now i result }
{
    let t = area::target(area);
    let most = c as u64;
    match i {
        Side::First => {
            if t < most {
                return t + 1;
            }
            most
        }
        Side::Second => {
            if t == 0 {
                return 0;
            }
            t - 1
        }
    }
}

// The side whose list to replace from.
pub fn turn(area: &[u64], c: usize, in_b2: bool) -> Side
    requires { Stored c area.now }
    ensures { TurnIs c area.now in_b2 result }
{
    let t1 = store::listed(area, c, Side::First);
    let p = area::target(area) as usize;
    if prefers_t1(t1, p, in_b2) {
        return Side::First;
    }
    let t2 = store::listed(area, c, Side::Second);
    if t2 == 0 {
        return Side::First;
    }
    Side::Second
}

// Whether T1 comes first: it is not empty, and it is longer than the target, or as long on a B2 hit.
fn prefers_t1(t1: usize, p: usize, in_b2: bool) -> bool
    ensures { result ≡ prefers_t1 in_b2 p t1 }
{
    if t1 == 0 {
        return false;
    }
    if p < t1 {
        return true;
    }
    if t1 == p {
        return in_b2;
    }
    false
}
