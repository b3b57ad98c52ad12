// Traces: operations one after the other, read by a cursor, and the check of a whole trace.
#![tactic(auto)]

ghost use Rattle.std.specs.Prelude.{◌≡◌, ◌+◌, ◌<◌, ◌^◌, length};
ghost use Rattle.trace.specs.Reading.{check_of, stop_number, told_into, room_in};
ghost use Rattle.trace.specs.Steps.{step_to, step_at, step_of};

use numbers::Numeral;
use refusals::Refusal;

// 1 get, 2 insert, 3 remove, 4 clear, 5 peek; then page (1, 2, 3, 5) and frame (2).
#[derive(Clone, Copy)]
pub enum Operation {
    Get { page: u64 },
    Insert { page: u64, frame: u32 },
    Remove { page: u64 },
    Clear,
    Peek { page: u64 },
}

// A place in a trace.
#[derive(Clone, Copy)]
pub struct Cursor {
    pub at: usize,
}

// What stands at a cursor: an operation, the trace's end, or a refusal 4 or 5 with its offset. It is an enum of its own and
// no Result of an Option, since a loop over a trace goes on in three ways, and an enum inside an enum is kept in memory.
#[derive(Clone, Copy)]
pub enum Found {
    Read(Operation),
    End,
    Refused { refusal: Refusal, offset: usize },
}

// The cursor, moved past an operation that was read, and else where it was, with what stood there.
#[derive(Clone, Copy)]
pub struct Step {
    pub cursor: Cursor,
    pub found: Found,
}

// What the check of a trace tells: how many operations read whole, the refusal that stopped it, and that refusal's offset (the
// trace's length for none).
#[derive(Clone, Copy)]
pub struct Checked {
    pub operations: usize,
    pub refusal: Option<Refusal>,
    pub offset: usize,
}

impl Cursor {
    // A cursor at the start of a trace.
    pub fn new() -> Self
        ensures { result.at ≡ 0 }
    {
        Cursor { at: 0 }
    }

    // What stands at this cursor of a whole trace: any cursor, also one past the end.
    pub fn step(self, trace: &[u8]) -> Step
        ensures { result ≡ step_of self.at trace.now }
    {
        let at = self.at;
        if trace.len() <= at {
            return Step {
                cursor: self,
                found: Found::End,
            };
        }
        self.next(&trace[at..])
    }

    // The operation at the start of `rest`, which is the rest of the trace from this cursor on. What follows the code is read as a
    // page before the code is looked at: with one call of the reader the compiler puts all of it into the caller's loop.
    pub fn next(self, rest: &[u8]) -> Step
        requires { self.at + length rest.now < 2 ^ 64 }
        ensures { result ≡ step_at self.at rest.now }
    {
        if rest.len() == 0 {
            return Step {
                cursor: self,
                found: Found::End,
            };
        }
        let code = rest[0];
        let number = numbers::read_page(&rest[1..]);
        match code {
            1 => {
                let Ok(Numeral { value: page, used }) = number else {
                    return self.refuse(Refusal::Number);
                };
                self.past(Operation::Get { page }, 1 + used)
            }
            2 => {
                let Ok(Numeral { value: page, used }) = number else {
                    return self.refuse(Refusal::Number);
                };
                let start = 1 + used;
                let after = numbers::read_frame(&rest[start..]);
                let Ok(Numeral { value: frame, used }) = after else {
                    return self.refuse(Refusal::Number);
                };
                self.past(Operation::Insert { page, frame }, start + used)
            }
            3 => {
                let Ok(Numeral { value: page, used }) = number else {
                    return self.refuse(Refusal::Number);
                };
                self.past(Operation::Remove { page }, 1 + used)
            }
            4 => self.past(Operation::Clear, 1),
            5 => {
                let Ok(Numeral { value: page, used }) = number else {
                    return self.refuse(Refusal::Number);
                };
                self.past(Operation::Peek { page }, 1 + used)
            }
            _ => self.refuse(Refusal::Operation),
        }
    }

    // An operation of so many bytes: the cursor moves past it.
    fn past(mut self, operation: Operation, used: usize) -> Step
        requires { self.at + used < 2 ^ 64 }
        ensures { result ≡ step_to (self.at + used) (Found.Read operation) }
    {
        self.at += used;
        Step {
            cursor: self,
            found: Found::Read(operation),
        }
    }

    // A refusal, at the operation's first byte: the cursor stays.
    fn refuse(self, refusal: Refusal) -> Step
        ensures { result ≡ step_to self.at (Found.Refused refusal self.at) }
    {
        Step {
            cursor: self,
            found: Found::Refused {
                refusal,
                offset: self.at,
            },
        }
    }
}

// Reads a trace to its end, or to the first operation that cannot be read, and runs nothing.
pub fn check(trace: &[u8]) -> Checked
    ensures { result ≡ check_of trace.now }
{
    let mut cursor = Cursor::new();
    let mut operations: usize = 0;
    loop {
        let at = cursor.at;
        let step = cursor.next(&trace[at..]);
        match step.found {
            Found::Read(_) => {
                cursor = step.cursor;
                operations += 1;
            }
            Found::End => {
                return Checked {
                    operations,
                    refusal: None,
                    offset: at,
                };
            }
            Found::Refused { refusal, offset } => {
                return Checked {
                    operations,
                    refusal: Some(refusal),
                    offset,
                };
            }
        }
    }
}

// How many operations of a trace read whole.
pub fn trace_operations(trace: &[u8]) -> u64
    ensures { result ≡ (check_of trace.now).operations }
{
    check(trace).operations as u64
}

// The number of the refusal that stops a trace, or 0.
pub fn trace_refusal(trace: &[u8]) -> u64
    ensures { result ≡ stop_number (check_of trace.now).refusal }
{
    number_or_0(check(trace).refusal)
}

// Where the operation that stops a trace starts, or the trace's length.
pub fn trace_offset(trace: &[u8]) -> u64
    ensures { result ≡ (check_of trace.now).offset }
{
    check(trace).offset as u64
}

// All three in one pass, into the first three words of `out`: the operations, the refusal, the offset. Answers 1; or 0
// where `out` has fewer than three words, and then nothing is written.
pub fn trace_check_all(trace: &[u8], out: &mut [u64]) -> u64
    ensures into { out.new ≡ told_into (check_of trace.now) out.old }
    ensures room { result ≡ room_in out.old }
{
    if out.len() < 3 {
        return 0;
    }
    let c = check(trace);
    out[0] = c.operations as u64;
    out[1] = number_or_0(c.refusal);
    out[2] = c.offset as u64;
    1
}

// The number of a refusal, 0 for none.
fn number_or_0(refusal: Option<Refusal>) -> u64
    ensures { result ≡ stop_number refusal }
{
    match refusal {
        Some(r) => r.number() as u64,
        None => 0,
    }
}
