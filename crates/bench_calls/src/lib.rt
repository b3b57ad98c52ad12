// The calls that bench/check times, for a program in C: the state check, `new`, and one public call, on the words of an area.
#![tactic(auto)]

ghost use Rattle.std.specs.Prelude.{◌≡◌};
ghost use Rattle.rules.specs.Calls.{Get};
ghost use Rattle.contracts.specs.Policy.{arc_policy};
ghost use Rattle.contracts.specs.Outer.{Outcome};
ghost use Rattle.state_check.specs.Check.{state_test};
ghost use Rattle.bench_calls.specs.Numbers.{passed, NewAt, got_at};

use arc_core::ArcCore;

// 1 where the words are a writing of a well-formed state of that kind, and else 0.
#[unsafe(no_mangle)]
pub extern "C" fn timed_check(area: &[u64], kind: u64) -> u64
    ensures { result ≡ passed (state_test kind area.now) }
{
    if state_check::check(area, kind) {
        return 1;
    }
    0
}

// 0 where an empty cache is made, and else the number of the refusal, which leaves the words as they were.
#[unsafe(no_mangle)]
pub extern "C" fn timed_new(area: &mut [u64], kind: u64, c: u64) -> u64
    ensures { NewAt kind c area.old area.new result }
{
    match empty_cache::new(area, kind, c) {
        Ok(()) => 0,
        Err(refusal) => refusal.number() as u64,
    }
}

// A get of ARC: the frame of the page, or 2^32 for a miss, or 2^32 + 3 for refusal 3.
#[unsafe(no_mangle)]
pub extern "C" fn timed_get(area: &mut [u64], page: u64) -> u64
    ensures { Outcome arc_policy (Get page) area.old area.new (got_at result) }
{
    match ArcCore::get(area, page) {
        Ok(Some(f)) => f as u64,
        Ok(None) => 4294967296,
        Err(refusal) => 4294967296 + refusal.number() as u64,
    }
}
