// The residents of a cache, page and frame, into a lent slice of records: ARC's by T1 newest to oldest and then T2 likewise, CAR's by
// rising slot. `prepare` checks the area and tells how many records are written and where the first resident stands; `advance` reads one
// resident and tells where the next one stands; `list` is the loop over them that writes. All together is linear in the capacity.
#![tactic(auto)]

ghost use Rattle.std.specs.Prelude.{◌≡◌, cond, ◌+◌, ◌-◌, ◌≤◌, eqb, get_or};
ghost use Rattle.area.specs.Stored.{Stored, state_in};
ghost use Rattle.rules.specs.declared.Side.TheVariants.{Second as second};
ghost use Rattle.store.specs.Store.{slots_at};
ghost use Rattle.contracts.specs.Policy.{policy_of};
ghost use Rattle.opening.specs.Opening.{Holding};
ghost use Rattle.listing.specs.Order.{order, past, taken_from};
ghost use Rattle.listing.specs.Steps.{Stands, StandsIn, Follows, StepIs, plan_of};
ghost use Rattle.listing.specs.Outcome.{blanks, ListingOutcome};

use refusals::Refusal;
use rules::{Kind, Side};

// A resident as a listing writes it.
#[derive(Clone, Copy)]
pub struct Record {
    pub page: u64,
    pub frame: u32,
}

// What a listing answers: how many records it wrote, or a refusal; and records of which it wrote so many.
#[derive(Clone, Copy)]
pub struct Listing {
    pub answer: Result<u64, Refusal>,
    pub records: [Record; 1024],
}

// How many records a listing writes, and where the first resident stands.
#[derive(Clone, Copy)]
pub struct Plan {
    pub count: usize,
    pub first: usize,
}

// A resident, and where the next one stands.
#[derive(Clone, Copy)]
pub struct Step {
    pub resident: Record,
    pub next: usize,
}

// Past the last slot of T1 comes the first of T2.
fn onward(area: &[u64], c: usize, at: usize) -> usize
    requires { Stored c area.now }
    ensures { result ≡ cond (eqb at c) (get_or (slots_at second c area.now) 0 (c + 1)) at }
{
    if at == c {
        return store::start(area, c, Side::Second);
    }
    at
}

// The first taken slot from `from` on, or c.
fn taken_from(area: &[u64], c: usize, from: usize) -> usize
    requires { Stored c area.now × (from ≤ c) }
    ensures { result ≡ taken_from (state_in c area.now).lists from (c - from) }
{
    for k in from..c {
        if store::taken(area, c, k) {
            return k;
        }
    }
    c
}

// Where the first resident stands, and where the one after that of slot e.
fn first_of(area: &[u64], kind: Kind, c: usize) -> usize
    requires { Stored c area.now }
    ensures { result ≡ get_or (order kind (state_in c area.now)) 0 (past kind c) }
{
    match kind {
        Kind::Arc => {
            let e = store::start(area, c, Side::First);
            onward(area, c, e)
        }
        Kind::Car => taken_from(area, c, 0),
    }
}

fn next_of(area: &[u64], kind: Kind, c: usize, e: usize) -> usize
    requires { StandsIn kind c area.now e }
    ensures { Follows kind c area.now e result }
{
    match kind {
        Kind::Arc => {
            let n = store::next(area, c, e);
            onward(area, c, n)
        }
        Kind::Car => {
            let k = e + 1;
            taken_from(area, c, k)
        }
    }
}

// The plan for an area that has passed the check.
fn prepare_in(area: &[u64], kind: Kind, c: usize, room: usize) -> Result<Plan, Refusal>
    requires { Holding (policy_of kind).kind c area.now }
    ensures { result ≡ plan_of kind area.now room }
{
    let t1 = store::listed(area, c, Side::First);
    let t2 = store::listed(area, c, Side::Second);
    let n = t1 + t2;
    if room < n {
        return Err(Refusal::Room);
    }
    let first = first_of(area, kind, c);
    Ok(Plan { count: n, first })
}

// What a listing into so many records writes, on any words: refusal 3 where they are not well formed for the policy, refusal 6 where
// there are fewer records than residents.
pub fn prepare(area: &[u64], kind: Kind, room: usize) -> Result<Plan, Refusal>
    ensures { result ≡ plan_of kind area.now room }
{
    let c = opening::open(area, kind)?;
    prepare_in(area, kind, c, room)
}

// The resident of slot `at`, and where the next one of the listing stands.
pub fn advance(area: &[u64], kind: Kind, at: usize) -> Step
    requires { Stands kind area.now at }
    ensures { StepIs kind area.now at result }
{
    let c = area::capacity(area) as usize;
    let page = store::page(area, c, at);
    let frame = store::frame(area, c, at);
    let next = next_of(area, kind, c, at);
    Step {
        resident: Record { page, frame },
        next,
    }
}

// THE LISTING: the residents into `records`, from the first one on, and how many there are. On a refusal nothing is written; records
// past the written ones keep what they held.
pub fn list(area: &[u64], kind: Kind, records: &mut [Record]) -> Result<u64, Refusal>
    ensures { ListingOutcome (policy_of kind) area.now records.old records.new result }
{
    let p = prepare(area, kind, records.len())?;
    let n = p.count;
    let mut at = p.first;
    for r in &mut records[..n] {
        let s = advance(area, kind, at);
        *r = s.resident;
        at = s.next;
    }
    Ok(n as u64)
}

// A listing into records of its own, enough for every cache, which it gives back beside the answer: its callers lend no records.
pub fn list_all(area: &[u64], kind: Kind) -> Listing
    ensures { ListingOutcome (policy_of kind) area.now blanks result.records result.answer }
{
    let mut records = [Record { page: 0, frame: 0 }; 1024];
    let answer = list(area, kind, &mut records);
    Listing { answer, records }
}
