// The trace check, for a program in C: include/trace_check.h declares these functions. Each calls the function of its name
// of `trace`, with the same clauses. They stand here because a function is exported to C only by a static library, which
// no other crate can use.
#![tactic(auto)]

ghost use Rattle.std.specs.Prelude.{◌≡◌};
ghost use Rattle.trace.specs.Reading.{check_of, stop_number, told_into, room_in};

// How many operations of a trace read whole.
#[unsafe(no_mangle)]
pub extern "C" fn trace_operations(trace: &[u8]) -> u64
    ensures { result ≡ (check_of trace.now).operations }
{
    trace::trace_operations(trace)
}

// The number of the refusal that stops a trace, or 0.
#[unsafe(no_mangle)]
pub extern "C" fn trace_refusal(trace: &[u8]) -> u64
    ensures { result ≡ stop_number (check_of trace.now).refusal }
{
    trace::trace_refusal(trace)
}

// Where the operation that stops a trace starts, or the trace's length.
#[unsafe(no_mangle)]
pub extern "C" fn trace_offset(trace: &[u8]) -> u64
    ensures { result ≡ (check_of trace.now).offset }
{
    trace::trace_offset(trace)
}

// All three in one pass, into the first three words of `out`: the operations, the refusal, the offset. Answers 1; or 0
// where `out` has fewer than three words, and then nothing is written.
#[unsafe(no_mangle)]
pub extern "C" fn trace_check_all(trace: &[u8], out: &mut [u64]) -> u64
    ensures into { out.new ≡ told_into (check_of trace.now) out.old }
    ensures room { result ≡ room_in out.old }
{
    trace::trace_check_all(trace, out)
}
