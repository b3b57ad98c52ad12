// The public calls of both policies, by the kind, on a lent area of any words. Nothing is asked of the caller: where the
// words are no writing of a well-formed state of the kind's policy the answer is refusal 3 and nothing changes, and else
// the inner call is made. A call reads the whole area, to check it.
#![tactic(auto)]

ghost use Rattle.std.specs.Prelude.{◌≡◌, min};
ghost use Rattle.rules.specs.State.{max_capacity};
ghost use Rattle.rules.specs.Public.{words_needed};
ghost use Rattle.rules.specs.Calls.{Get, Insert, Remove, Clear, Peek, Contains, Len, Capacity, Target, T1Len, T2Len, B1Len, B2Len};
ghost use Rattle.answers.specs.Answers.{told, got_is, seen_is, held_is, inserted_is, gone_is, cleared_is, counted_is, made_is};
ghost use Rattle.contracts.specs.Policy.{policy_of};
ghost use Rattle.contracts.specs.Outer.{Outcome, Told, Making};

use answers::Inserted;
use refusals::Refusal;
use rules::Kind;

// The largest capacity, of every kind.
pub const MAX_CAPACITY: u64 = area::MAX_CAPACITY as u64;

const PER_FRAME: u64 = area::AREA_PER_FRAME as u64;

const BASE: u64 = area::AREA_BASE as u64;

// The words that a cache of capacity c needs, 24c + 64. Past the largest capacity, which `new` refuses, those of the
// largest.
pub fn words(c: u64) -> u64
    ensures { result ≡ words_needed (min c max_capacity) }
{
    if c <= MAX_CAPACITY {
        return PER_FRAME * c + BASE;
    }
    PER_FRAME * MAX_CAPACITY + BASE
}

// An empty cache of capacity c, whatever the words are.
pub fn new(area: &mut [u64], kind: Kind, c: u64) -> Result<(), Refusal>
    ensures { Making (policy_of kind) c area.old area.new (told made_is result) }
{
    let number = contracts::number(kind);
    empty_cache::new(area, number, c)
}

// The frame of a page, if it is resident.
pub fn get(area: &mut [u64], kind: Kind, page: u64) -> Result<Option<u32>, Refusal>
    ensures { Outcome (policy_of kind) (Get page) area.old area.new (told got_is result) }
{
    let c = opening::open(area, kind)?;
    Ok(inner_calls::get(area, c, kind, page))
}

// The same, and nothing changes.
pub fn peek(area: &[u64], kind: Kind, page: u64) -> Result<Option<u32>, Refusal>
    ensures { Told (policy_of kind) (Peek page) area.now (told seen_is result) }
{
    let c = opening::open(area, kind)?;
    Ok(inner_calls::peek(area, c, kind, page))
}

// Whether a page is resident.
pub fn contains(area: &[u64], kind: Kind, page: u64) -> Result<bool, Refusal>
    ensures { Told (policy_of kind) (Contains page) area.now (told held_is result) }
{
    let c = opening::open(area, kind)?;
    Ok(inner_calls::contains(area, c, kind, page))
}

// A page and its frame come in; the answer names the page that went out for it, if one did.
pub fn insert(area: &mut [u64], kind: Kind, page: u64, frame: u32) -> Result<Inserted, Refusal>
    ensures { Outcome (policy_of kind) (Insert page frame) area.old area.new (told inserted_is result) }
{
    let c = opening::open(area, kind)?;
    Ok(inner_calls::insert(area, c, kind, page, frame))
}

// A page leaves; the ghosts stay.
pub fn remove(area: &mut [u64], kind: Kind, page: u64) -> Result<Option<u32>, Refusal>
    ensures { Outcome (policy_of kind) (Remove page) area.old area.new (told gone_is result) }
{
    let c = opening::open(area, kind)?;
    Ok(inner_calls::remove(area, c, kind, page))
}

// All lists are empty again, and the target is c / 2.
pub fn clear(area: &mut [u64], kind: Kind) -> Result<(), Refusal>
    ensures { Outcome (policy_of kind) Clear area.old area.new (told cleared_is result) }
{
    let c = opening::open(area, kind)?;
    inner_calls::clear(area, c, kind);
    Ok(())
}

// How many pages are resident; how many may be.
pub fn len(area: &[u64], kind: Kind) -> Result<u64, Refusal>
    ensures { Told (policy_of kind) Len area.now (told counted_is result) }
{
    let c = opening::open(area, kind)?;
    Ok(inner_calls::len(area, c, kind) as u64)
}

pub fn capacity(area: &[u64], kind: Kind) -> Result<u64, Refusal>
    ensures { Told (policy_of kind) Capacity area.now (told counted_is result) }
{
    let c = opening::open(area, kind)?;
    Ok(inner_calls::capacity(area, c, kind) as u64)
}

// The target, and the lengths of T1, T2, B1 and B2.
pub fn p_value(area: &[u64], kind: Kind) -> Result<u64, Refusal>
    ensures { Told (policy_of kind) Target area.now (told counted_is result) }
{
    let c = opening::open(area, kind)?;
    Ok(inner_calls::p_value(area, c, kind))
}

pub fn t1_len(area: &[u64], kind: Kind) -> Result<u64, Refusal>
    ensures { Told (policy_of kind) T1Len area.now (told counted_is result) }
{
    let c = opening::open(area, kind)?;
    Ok(inner_calls::t1_len(area, c, kind) as u64)
}

pub fn t2_len(area: &[u64], kind: Kind) -> Result<u64, Refusal>
    ensures { Told (policy_of kind) T2Len area.now (told counted_is result) }
{
    let c = opening::open(area, kind)?;
    Ok(inner_calls::t2_len(area, c, kind) as u64)
}

pub fn b1_len(area: &[u64], kind: Kind) -> Result<u64, Refusal>
    ensures { Told (policy_of kind) B1Len area.now (told counted_is result) }
{
    let c = opening::open(area, kind)?;
    Ok(inner_calls::b1_len(area, c, kind) as u64)
}

pub fn b2_len(area: &[u64], kind: Kind) -> Result<u64, Refusal>
    ensures { Told (policy_of kind) B2Len area.now (told counted_is result) }
{
    let c = opening::open(area, kind)?;
    Ok(inner_calls::b2_len(area, c, kind) as u64)
}
