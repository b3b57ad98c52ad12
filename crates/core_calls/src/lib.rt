// The public calls of a policy, on a lent area of any words. Nothing is asked of the caller: where the words are no
// writing of a well-formed state of the policy the answer is refusal 3 and nothing changes, and else the inner call is
// made. A call reads the whole area, to check it.
// The calls that lend counts or records are by the kind, for both policies: `batch::batch` and `listing::list`.
#![tactic(auto)]

ghost use Rattle.std.specs.Prelude.{◌≡◌, min};
ghost use Rattle.rules.specs.State.{max_capacity};
ghost use Rattle.rules.specs.Calls.{Get, Insert, Remove, Clear, Peek, Contains, Len, Capacity};
ghost use Rattle.rules.specs.Calls.{Target, T1Len, T2Len, B1Len, B2Len};
ghost use Rattle.rules.specs.declared.Kind.{Kind};
ghost use Rattle.rules.specs.declared.Kind.TheVariants as kinds;
ghost use Rattle.rules.specs.Public.{words_needed};
ghost use Rattle.answers.specs.Answers.{told, got_is, seen_is, held_is, inserted_is};
ghost use Rattle.answers.specs.Answers.{gone_is, cleared_is, counted_is, made_is};
ghost use Rattle.contracts.specs.Policy.{policy_of};
ghost use Rattle.contracts.specs.Outer.{Outcome, Told, Making};
ghost use Rattle.batch.specs.Outcomes.{ran_is, BatchOutcome};

use answers::Inserted;
use batch::{Counts, Tally};
use refusals::Refusal;
use rules::Kind;
use std::marker::PhantomData;

// A policy as a type: the kind that its calls are by.
pub trait Policy {
    ghost KIND: { Kind };

    const KIND: Kind;
}

// ARC.
#[derive(Clone, Copy)]
pub struct Arc {}

impl Policy for Arc {
    ghost KIND = { kinds.Arc };

    const KIND: Kind = Kind::Arc;
}

// CAR.
#[derive(Clone, Copy)]
pub struct Car {}

impl Policy for Car {
    ghost KIND = { kinds.Car };

    const KIND: Kind = Kind::Car;
}

// The calls of a policy: `arc_core::ArcCore` and `car_core::CarCore` are this at `Arc` and `Car`. A value holds nothing,
// and no call takes one.
#[derive(Clone, Copy)]
pub struct Core<P> {
    pub policy: PhantomData<P>,
}

// The type is a policy too, so that a clause can name the kind of the policy that a name for it stands for.
impl<P: Policy> Policy for Core<P> {
    ghost KIND = { P.KIND };

    const KIND: Kind = P::KIND;
}

// The largest capacity stands at each policy: a constant of `impl<P>` is a function to the check, in a file whose name
// would differ from that of `max_capacity` in case alone.
impl Core<Arc> {
    pub const MAX_CAPACITY: u64 = public_calls::MAX_CAPACITY;

    // The same as a call, so that a contract says which number it is.
    pub fn max_capacity() -> u64
        ensures { result ≡ max_capacity }
    {
        Self::MAX_CAPACITY
    }
}

impl Core<Car> {
    pub const MAX_CAPACITY: u64 = Core::<Arc>::MAX_CAPACITY;

    pub fn max_capacity() -> u64
        ensures { result ≡ max_capacity }
    {
        Self::MAX_CAPACITY
    }
}

impl<P: Policy> Core<P> {
    // The kind that the calls are by. A name for this type at one policy is held to it by a function of its own, whose
    // contract says the kind of what the name stands for: `arc_core::kind`, `car_core::kind`.
    pub fn kind() -> Kind
        ensures { result ≡ P.KIND }
    {
        P::KIND
    }

    // The words that a cache of capacity c needs, 24c + 64. Past the largest capacity, which `new` refuses, those of
    // the largest.
    pub fn words(c: u64) -> u64
        ensures { result ≡ words_needed (min c max_capacity) }
    {
        public_calls::words(c)
    }

    // An empty cache of capacity c, whatever the words are.
    pub fn new(area: &mut [u64], c: u64) -> Result<(), Refusal>
        ensures { Making (policy_of P.KIND) c area.old area.new (told made_is result) }
    {
        public_calls::new(area, P::KIND, c)
    }

    // The frame of a page, or a miss. With ARC the page moves to the front of T2, with CAR its bit is set.
    pub fn get(area: &mut [u64], page: u64) -> Result<Option<u32>, Refusal>
        ensures { Outcome (policy_of P.KIND) (Get page) area.old area.new (told got_is result) }
    {
        public_calls::get(area, P::KIND, page)
    }

    // The same, and nothing changes.
    pub fn peek(area: &[u64], page: u64) -> Result<Option<u32>, Refusal>
        ensures { Told (policy_of P.KIND) (Peek page) area.now (told seen_is result) }
    {
        public_calls::peek(area, P::KIND, page)
    }

    // Whether a page is resident.
    pub fn contains(area: &[u64], page: u64) -> Result<bool, Refusal>
        ensures { Told (policy_of P.KIND) (Contains page) area.now (told held_is result) }
    {
        public_calls::contains(area, P::KIND, page)
    }

    // A page and its frame come in; the answer names the page that went out for it, if one did.
    pub fn insert(area: &mut [u64], page: u64, frame: u32) -> Result<Inserted, Refusal>
        ensures { Outcome (policy_of P.KIND) (Insert page frame) area.old area.new (told inserted_is result) }
    {
        public_calls::insert(area, P::KIND, page, frame)
    }

    // A page leaves; the ghosts stay.
    pub fn remove(area: &mut [u64], page: u64) -> Result<Option<u32>, Refusal>
        ensures { Outcome (policy_of P.KIND) (Remove page) area.old area.new (told gone_is result) }
    {
        public_calls::remove(area, P::KIND, page)
    }

    // All lists are empty again, and the target is c / 2.
    pub fn clear(area: &mut [u64]) -> Result<(), Refusal>
        ensures { Outcome (policy_of P.KIND) Clear area.old area.new (told cleared_is result) }
    {
        public_calls::clear(area, P::KIND)
    }

    // How many pages are resident; how many may be.
    pub fn len(area: &[u64]) -> Result<u64, Refusal>
        ensures { Told (policy_of P.KIND) Len area.now (told counted_is result) }
    {
        public_calls::len(area, P::KIND)
    }

    pub fn capacity(area: &[u64]) -> Result<u64, Refusal>
        ensures { Told (policy_of P.KIND) Capacity area.now (told counted_is result) }
    {
        public_calls::capacity(area, P::KIND)
    }

    // The target, and the lengths of T1, T2, B1 and B2; CAR's T1 and T2 are its recent and its frequent clock.
    pub fn p_value(area: &[u64]) -> Result<u64, Refusal>
        ensures { Told (policy_of P.KIND) Target area.now (told counted_is result) }
    {
        public_calls::p_value(area, P::KIND)
    }

    pub fn t1_len(area: &[u64]) -> Result<u64, Refusal>
        ensures { Told (policy_of P.KIND) T1Len area.now (told counted_is result) }
    {
        public_calls::t1_len(area, P::KIND)
    }

    pub fn t2_len(area: &[u64]) -> Result<u64, Refusal>
        ensures { Told (policy_of P.KIND) T2Len area.now (told counted_is result) }
    {
        public_calls::t2_len(area, P::KIND)
    }

    pub fn b1_len(area: &[u64]) -> Result<u64, Refusal>
        ensures { Told (policy_of P.KIND) B1Len area.now (told counted_is result) }
    {
        public_calls::b1_len(area, P::KIND)
    }

    pub fn b2_len(area: &[u64]) -> Result<u64, Refusal>
        ensures { Told (policy_of P.KIND) B2Len area.now (told counted_is result) }
    {
        public_calls::b2_len(area, P::KIND)
    }

    // A batch: runs a trace on the area, and answers the operations done, or the refusal. The counts are this batch's,
    // those before a refusal 4 or 5 counted; on refusal 3 they are those handed in.
    pub fn tally(area: &mut [u64], trace: &[u8], lent: Counts) -> Tally
        ensures { BatchOutcome (policy_of P.KIND) trace.now lent area.old area.new (ran_is result.ran) result.counts }
    {
        batch::tally_up(area, P::KIND, trace, lent)
    }
}
