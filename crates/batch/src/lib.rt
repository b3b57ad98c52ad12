// A batch: a whole trace run on one area (RULES 7). The area is checked once, and every operation is an inner call. A
// record of counts says what this batch did; after a refusal 4 or 5 the operations before it are counted. `run` is the
// inner form; `tally_up` and `batch` take any words, the one with counts by value, the other with a lent record of
// them.
#![tactic(auto)]

ghost use Rattle.std.specs.Prelude.{◌≡◌};
ghost use Rattle.rules.specs.Counts.{plus, counted};
ghost use Rattle.answers.specs.Answers.{reply_is};
ghost use Rattle.contracts.specs.Policy.{policy_of};
ghost use Rattle.contracts.specs.Inner.{Good};
ghost use Rattle.batch.specs.Outcomes.{counts_is, ran_is, Fits, Finishes, BatchOutcome};

use answers::{Inserted, Reply};
use refusals::Refusal;
use rules::Kind;
use trace::{Cursor, Found};

// What a batch did. `removals` are those that found their page.
#[derive(Clone, Copy, PartialEq, Eq, Default)]
pub struct Counts {
    pub gets: u64,
    pub get_hits: u64,
    pub updates: u64,
    pub new_pages: u64,
    pub evictions: u64,
    pub steps: u64,
    pub removals: u64,
}

// Why a batch did not run to the end of its trace: refusal 4 or 5, with the offset of the operation's first byte; or
// refusal 3.
#[derive(Clone, Copy, PartialEq, Eq)]
pub enum Stopped {
    Trace { refusal: Refusal, offset: u64 },
    State,
}

// What a batch answers, the operations done or what stopped it, and its counts.
#[derive(Clone, Copy)]
pub struct Tally {
    pub ran: Result<u64, Stopped>,
    pub counts: Counts,
}

// The counts with one more answer.
fn count(mut n: Counts, reply: Reply) -> Counts
    requires { Fits n reply }
    ensures { counts_is result ≡ plus (counts_is n) (counted (reply_is reply)) }
{
    match reply {
        Reply::Got(Some(_)) => {
            n.gets += 1;
            n.get_hits += 1;
            n
        }
        Reply::Got(None) => {
            n.gets += 1;
            n
        }
        Reply::Inserted(Inserted::New) => {
            n.new_pages += 1;
            n
        }
        Reply::Inserted(Inserted::Out { steps, .. }) => {
            n.steps += steps;
            n.new_pages += 1;
            n.evictions += 1;
            n
        }
        Reply::Inserted(Inserted::Old(_)) => {
            n.updates += 1;
            n
        }
        Reply::Inserted(Inserted::None) => n,
        Reply::Gone(Some(_)) => {
            n.removals += 1;
            n
        }
        Reply::Gone(None) => n,
        Reply::Cleared => n,
        Reply::Seen(_) => n,
    }
}

// Runs a trace to its end, or to the first operation that cannot be read, on an area that is well formed. The inner form: it checks nothing.
pub fn run(area: &mut [u64], c: usize, kind: Kind, trace: &[u8]) -> Tally
    requires { Good (policy_of kind) c area.old }
    ensures { Finishes (policy_of kind) c trace.now area.old area.new result }
{
    let mut cursor = Cursor::new();
    let mut done: u64 = 0;
    let mut counts = Counts::default();
    loop {
        let at = cursor.at;
        let step = cursor.next(&trace[at..]);
        let found = step.found;
        match found {
            Found::Read(op) => {
                cursor = step.cursor;
                let reply = operations::operate(area, c, kind, op);
                counts = count(counts, reply);
                done += 1;
            }
            Found::End => {
                return Tally {
                    ran: Ok(done),
                    counts,
                };
            }
            Found::Refused { refusal, offset } => {
                return Tally {
                    ran: Err(Stopped::Trace {
                        refusal,
                        offset: offset as u64,
                    }),
                    counts,
                };
            }
        }
    }
}

// A batch of any words: the area is checked once, and then the trace is run. On refusal 3 the counts are those handed in.
pub fn tally_up(area: &mut [u64], kind: Kind, trace: &[u8], lent: Counts) -> Tally
    ensures { BatchOutcome (policy_of kind) trace.now lent area.old area.new (ran_is result.ran) result.counts }
{
    match opening::open(area, kind) {
        Ok(c) => run(area, c, kind, trace),
        Err(_) => Tally {
            ran: Err(Stopped::State),
            counts: lent,
        },
    }
}

// The same with a lent record of counts, which is set.
pub fn batch(
    area: &mut [u64],
    kind: Kind,
    trace: &[u8],
    counts: &mut Counts,
) -> Result<u64, Stopped>
    ensures { BatchOutcome (policy_of kind) trace.now counts.old area.old area.new (ran_is result) counts.new }
{
    let t = tally_up(area, kind, trace, *counts);
    *counts = t.counts;
    t.ran
}
