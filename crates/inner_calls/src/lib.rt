// The inner calls of both policies, by the kind. Each asks that the area holds a well-formed state of the kind's policy,
// of capacity c, and leaves one. Answer and state are those of the rules, over the operations of `store`. The kind is
// matched only where the rules differ: what a hit does (`touch`), what comes before a plain miss (`trim`), where a page
// enters (`put`, `exchange`), and who the victim is (`choose`).
#![tactic(auto)]

ghost use Rattle.std.specs.Prelude.{false};
ghost use Rattle.rules.specs.Calls.{Get, Insert, Remove, Clear, Cleared, Peek, Contains, Len, Capacity, Target, T1Len, T2Len, B1Len, B2Len, Holds, Number};
ghost use Rattle.area.specs.Stored.{Stored, state_in, Left};
ghost use Rattle.area_state.specs.States.{evicted_at};
ghost use Rattle.store.specs.Store.{IsSlot, CanEnter, CanExchange, Evicts};
ghost use Rattle.answers.specs.Answers.{got_is, seen_is, gone_is, inserted_is};
ghost use Rattle.contracts.specs.Policy.{policy_of, state_of};
ghost use Rattle.contracts.specs.Inner.{Good, Did, Says};
ghost use Rattle.stages.specs.Common.{HasResident};
ghost use Rattle.stages.specs.Stages.{HasRoom, CanCome, CanDisplace, entered, Stage, Gives, WayIs, Chooses};
ghost use Rattle.inner_calls.specs.Kinds.{stages_of, trimmed_of};

use answers::Inserted;
use rules::{Kind, Side};
use stages::{Victim, Way};
use store::Found;

// The frame of the page x, if it is resident. A hit touches it.
pub fn get(area: &mut [u64], c: usize, kind: Kind, x: u64) -> Option<u32>
    requires { Good (policy_of kind) c area.old }
    ensures { Did (policy_of kind) (Get x) c area.old area.new (got_is result) }
{
    let hit = stages::slot_of(area, c, x)?;
    let f = store::frame(area, c, hit);
    touch(area, c, kind, hit);
    Some(f)
}

// The same, and nothing changes.
pub fn peek(area: &[u64], c: usize, kind: Kind, x: u64) -> Option<u32>
    requires { Good (policy_of kind) c area.now }
    ensures { Says (policy_of kind) (Peek x) c area.now (seen_is result) }
{
    let seen = stages::slot_of(area, c, x)?;
    Some(store::frame(area, c, seen))
}

// Whether the page x is resident; nothing changes.
pub fn contains(area: &[u64], c: usize, kind: Kind, x: u64) -> bool
    requires { Good (policy_of kind) c area.now }
    ensures { Says (policy_of kind) (Contains x) c area.now (Holds result) }
{
    stages::slot_of(area, c, x).is_some()
}

// The page x with the frame f: not stored where c = 0; updated where it is resident; else stored new. Its stages stand
// below.
pub fn insert(area: &mut [u64], c: usize, kind: Kind, x: u64, f: u32) -> Inserted
    requires { Good (policy_of kind) c area.old }
    ensures { Did (policy_of kind) (Insert x f) c area.old area.new (inserted_is result) }
{
    if c == 0 {
        return Inserted::None;
    }
    match prepare(area, c, kind, x) {
        Way::Stays(e) => update(area, c, kind, e, f),
        Way::Comes(j, in_b2) => enter(area, c, kind, j, x, f, in_b2),
    }
}

// The page x leaves, and its frame is told; ghost lists are unchanged.
pub fn remove(area: &mut [u64], c: usize, kind: Kind, x: u64) -> Option<u32>
    requires { Good (policy_of kind) c area.old }
    ensures { Did (policy_of kind) (Remove x) c area.old area.new (gone_is result) }
{
    let gone = stages::slot_of(area, c, x)?;
    let old = store::frame(area, c, gone);
    store::remove(area, c, gone);
    Some(old)
}

// All lists are empty, and the target is c / 2.
pub fn clear(area: &mut [u64], c: usize, kind: Kind)
    requires { Good (policy_of kind) c area.old }
    ensures { Did (policy_of kind) Clear c area.old area.new Cleared }
{
    empty_cache::clear(area, c);
}

// How many are resident, and how many may be.
pub fn len(area: &[u64], c: usize, kind: Kind) -> usize
    requires { Good (policy_of kind) c area.now }
    ensures { Says (policy_of kind) Len c area.now (Number result) }
{
    stages::residents(area, c)
}

pub fn capacity(area: &[u64], c: usize, kind: Kind) -> usize
    requires { Good (policy_of kind) c area.now }
    ensures { Says (policy_of kind) Capacity c area.now (Number result) }
{
    c
}

// The target, and the lengths of the four lists.
pub fn p_value(area: &[u64], c: usize, kind: Kind) -> u64
    requires { Good (policy_of kind) c area.now }
    ensures { Says (policy_of kind) Target c area.now (Number result) }
{
    area::target(area)
}

pub fn t1_len(area: &[u64], c: usize, kind: Kind) -> usize
    requires { Good (policy_of kind) c area.now }
    ensures { Says (policy_of kind) T1Len c area.now (Number result) }
{
    store::listed(area, c, Side::First)
}

pub fn t2_len(area: &[u64], c: usize, kind: Kind) -> usize
    requires { Good (policy_of kind) c area.now }
    ensures { Says (policy_of kind) T2Len c area.now (Number result) }
{
    store::listed(area, c, Side::Second)
}

pub fn b1_len(area: &[u64], c: usize, kind: Kind) -> usize
    requires { Good (policy_of kind) c area.now }
    ensures { Says (policy_of kind) B1Len c area.now (Number result) }
{
    store::recorded(area, c, Side::First)
}

pub fn b2_len(area: &[u64], c: usize, kind: Kind) -> usize
    requires { Good (policy_of kind) c area.now }
    ensures { Says (policy_of kind) B2Len c area.now (Number result) }
{
    store::recorded(area, c, Side::Second)
}

// ---- the stages of an insert, in the order of RULES 5.3 to 5.8
// The resident of slot e gets the frame f, and is touched. The answer is the old frame.
fn update(area: &mut [u64], c: usize, kind: Kind, e: usize, f: u32) -> Inserted
    requires { IsSlot c area.old e }
    ensures { Gives (policy_of kind) ((stages_of kind).updated e f (state_in c area.old)) c area.old area.new result }
{
    let old = store::frame(area, c, e);
    store::set_frame(area, c, e, f);
    touch(area, c, kind, e);
    Inserted::Old(old)
}

// Finds the page and runs the stages before its entry: ghost hit or trim. Answers update, or enter T1 or T2.
fn prepare(area: &mut [u64], c: usize, kind: Kind, x: u64) -> Way
    requires { HasRoom c area.old }
    ensures { WayIs (policy_of kind) (stages_of kind).ready c area.old area.new x result }
{
    match store::find(area, c, x) {
        Found::Resident(e) => Way::Stays(e),
        Found::InB1(g) => {
            stages::adapt(area, c, Side::First, g, x);
            Way::Comes(Side::Second, false)
        }
        Found::InB2(g) => {
            stages::adapt(area, c, Side::Second, g, x);
            Way::Comes(Side::Second, true)
        }
        Found::Nowhere => {
            trim(area, c, kind);
            Way::Comes(Side::First, false)
        }
    }
}

// A page that no list has: replace if full; it enters the list of side j. It has one caller: called from the ghost
// hits and the miss each, it stayed a call that saved twelve registers and handed its answer over in memory. With one the
// compiler takes all of an insert into the batch: 6 to 14 % where pages are evicted (D64).
fn enter(area: &mut [u64], c: usize, kind: Kind, j: Side, x: u64, f: u32, in_b2: bool) -> Inserted
    requires { CanCome c area.old x }
    ensures { Gives (policy_of kind) (entered ((stages_of kind).admitted j x f) ((stages_of kind).made in_b2 (state_of (policy_of kind) c area.old))) c area.old area.new result }
{
    let n = stages::residents(area, c);
    if n < c {
        put(area, c, kind, j, x, f);
        return Inserted::New;
    }
    replace(area, c, kind, j, x, f, in_b2)
}

// The victim leaves, and is recorded in the ghost list of its side. The page takes its slot.
fn replace(area: &mut [u64], c: usize, kind: Kind, j: Side, x: u64, f: u32, in_b2: bool) -> Inserted
    requires { CanDisplace c area.old x }
    ensures { Gives (policy_of kind) (entered ((stages_of kind).admitted j x f) ((stages_of kind).replace in_b2 (state_of (policy_of kind) c area.old))) c area.old area.new result }
{
    let v = choose(area, c, kind, in_b2);
    let out = exchange(area, c, kind, v.side, v.slot, j, x, f);
    let place = answers::recorded_for(v.side);
    Inserted::Out {
        page: out.page,
        frame: out.frame,
        place,
        steps: v.steps,
    }
}

// ---- where the rules differ
// A hit of the resident of slot e: it comes to the front of T2, or its bit is set.
fn touch(area: &mut [u64], c: usize, kind: Kind, e: usize)
    requires { IsSlot c area.old e }
    ensures { Left c area.old area.new ((stages_of kind).touched e (state_in c area.old)) }
{
    match kind {
        Kind::Arc => store::to_front(area, c, e),
        Kind::Car => store::set_bit(area, c, e, true),
    }
}

// Before a plain miss: ARC trims its ghost lists.
fn trim(area: &mut [u64], c: usize, kind: Kind)
    requires { Stored c area.old }
    ensures { Stage (policy_of kind) c area.old area.new (trimmed_of kind (state_of (policy_of kind) c area.old)) }
{
    match kind {
        Kind::Arc => arc::trim(area, c),
        Kind::Car => {}
    }
}

// A page comes into a free slot, its bit clear: at the front of its list, or at the end of its clock.
fn put(area: &mut [u64], c: usize, kind: Kind, j: Side, x: u64, f: u32)
    requires { CanEnter c area.old x }
    ensures { Left c area.old area.new ((stages_of kind).put j x f false (state_in c area.old)) }
{
    match kind {
        Kind::Arc => store::enter_front(area, c, j, x, f, false),
        Kind::Car => store::enter_end(area, c, j, x, f, false),
    }
}

// The victim: the oldest of T1 or T2, or the first that the hand meets with a clear bit.
fn choose(area: &mut [u64], c: usize, kind: Kind, in_b2: bool) -> Victim
    requires { HasResident c area.old }
    ensures { Chooses (policy_of kind) (stages_of kind).replace c area.old area.new in_b2 result }
{
    match kind {
        Kind::Arc => arc::oldest(area, c, in_b2),
        Kind::Car => car::sweep(area, c, in_b2),
    }
}

// A page takes the slot of the victim, its bit clear: at the front of its list, or at the end of its clock.
fn exchange(
    area: &mut [u64],
    c: usize,
    kind: Kind,
    i: Side,
    e: usize,
    j: Side,
    x: u64,
    f: u32,
) -> store::Out
    requires { CanExchange c area.old i e x }
    ensures { Evicts c area.old area.new e result ((stages_of kind).put j x f false (evicted_at i e (state_in c area.old))) }
{
    match kind {
        Kind::Arc => store::exchange_front(area, c, i, e, j, x, f, false),
        Kind::Car => store::exchange_end(area, c, i, e, j, x, f, false),
    }
}
