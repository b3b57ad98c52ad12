// The test program `lent`: the two public calls that are lent a record of counts and a slice of records, in that form,
// for both policies; and `words`. A caller that lends a struct is proved by hand. So each of the two has one caller
// here, the shortest there is: it lends a local, and returns it beside the answer. It also tells what is left of the
// header's unused words. The file stdout is written by hand from docs/RULES.md and docs/LAYOUT.md.
#![tactic(auto)]

ghost use Rattle.contracts.specs.Policy.{policy_of};
ghost use Rattle.batch.specs.Outcomes.{ran_is, BatchOutcome};
ghost use Rattle.listing.specs.Outcome.{ListingOutcome};
ghost use Rattle.lent.specs.Lent.{sevens};

use arc_core::ArcCore;
use batch::{Counts, Stopped, Tally};
use car_core::CarCore;
use listing::Record;
use refusals::Refusal;
use rules::Kind;
use test_text::area_words::word;

// What a listing answers, and the four records that were lent to it.
#[derive(Clone, Copy)]
struct Listing {
    answer: Result<u64, Refusal>,
    records: [Record; 4],
}

// ---- the calls

fn lent_batch(area: &mut [u64], kind: Kind, trace: &[u8], mut counts: Counts) -> Tally
    ensures { BatchOutcome (policy_of kind) trace.now counts area.old area.new (ran_is result.ran) result.counts }
{
    let ran = batch::batch(area, kind, trace, &mut counts);
    Tally { ran, counts }
}

fn lent_list(area: &[u64], kind: Kind) -> Listing
    ensures { ListingOutcome (policy_of kind) area.now sevens result.records result.answer }
{
    let mut records = [Record { page: 7, frame: 7 }; 4];
    let answer = listing::list(area, kind, &mut records);
    Listing { answer, records }
}

// ---- what they told and left, as text

fn put_refusal(refusal: Refusal) {
    test_text::field(b"refusal ", u64::from(refusal.number()));
}

fn put_ran(ran: Result<u64, Stopped>) {
    match ran {
        Ok(n) => test_text::field(b"done ", n),
        Err(Stopped::Trace { refusal, offset }) => {
            put_refusal(refusal);
            test_text::field(b" at ", offset);
        }
        Err(Stopped::State) => test_text::word(b"refusal 3"),
    }
}

fn put_counts(n: Counts) {
    let mut before: &[u8] = b"; counts ";
    for count in [
        n.gets,
        n.get_hits,
        n.updates,
        n.new_pages,
        n.evictions,
        n.steps,
        n.removals,
    ] {
        test_text::field(before, count);
        before = b" ";
    }
}

fn put_listed(answer: Result<u64, Refusal>) {
    match answer {
        Ok(n) => test_text::field(b"; listed ", n),
        Err(Refusal::Room) => test_text::word(b"; refusal 6"),
        Err(Refusal::State) => test_text::word(b"; refusal 3"),
        Err(refusal) => test_text::field(b"; refusal ", u64::from(refusal.number())),
    }
}

fn put_record(r: Record) {
    test_text::field(b", ", r.page);
    test_text::field(b" ", r.frame as u64);
}

fn put_records(records: [Record; 4]) {
    for r in records {
        put_record(r);
    }
}

fn put_tally(t: Tally) {
    let ran = t.ran;
    let counts = t.counts;
    put_ran(ran);
    put_counts(counts);
}

fn put_listing(l: Listing) {
    let answer = l.answer;
    let records = l.records;
    put_listed(answer);
    put_records(records);
    test_text::word(b"\n");
}

// ---- the runs: a batch with counts of sevens, then a listing into records of sevens

fn words(kind: Kind, c: u64) -> u64 {
    match kind {
        Kind::Arc => ArcCore::words(c),
        Kind::Car => CarCore::words(c),
    }
}

fn put_kind(kind: Kind) {
    match kind {
        Kind::Arc => test_text::word(b"ARC"),
        Kind::Car => test_text::word(b"CAR"),
    }
}

fn run(area: &mut [u64], kind: Kind, trace: &[u8]) {
    let lent = Counts {
        gets: 7,
        get_hits: 7,
        updates: 7,
        new_pages: 7,
        evictions: 7,
        steps: 7,
        removals: 7,
    };
    let t = lent_batch(area, kind, trace, lent);
    put_tally(t);
    let l = lent_list(area, kind);
    put_listing(l);
}

// A new cache, of which the words that it needs are told.
fn run_new(area: &mut [u64], kind: Kind, c: u64, trace: &[u8]) {
    let n = words(kind, c);
    put_kind(kind);
    test_text::field(b", ", c);
    test_text::field(b" frames in ", n);
    test_text::word(b" words: ");
    match public_calls::new(area, kind, c) {
        Ok(()) => run(area, kind, trace),
        Err(refusal) => put_refusal(refusal),
    }
}

// Insert 1, 2, 3, remove 2, insert 4, get 3 three times, get 8 twice, insert 4 four times with other frames, insert 9
// and 10.
fn run_all(area: &mut [u64], kind: Kind) {
    let trace =
        *b"\x02\x01\x0b\x02\x02\x0c\x02\x03\x0d\x03\x02\x02\x04\x0e\x01\x03\x01\x03\x01\x03\x01\x08\x01\x08\x02\x04\x15\x02\x04\x16\x02\x04\x17\x02\x04\x18\x02\x09\x13\x02\x0a\x14";
    run_new(area, kind, 3, &trace);
}

// The cache that stands: a get, and a code that is none.
fn run_bad(area: &mut [u64], kind: Kind) {
    test_text::word(b"  then a get and a bad code: ");
    run(area, kind, b"\x01\x04\x06");
}

// Five residents, and four records.
fn run_five(area: &mut [u64], kind: Kind) {
    run_new(
        area,
        kind,
        5,
        b"\x02\x01\x0b\x02\x02\x0c\x02\x03\x0d\x02\x04\x0e\x02\x05\x0f",
    );
}

fn run_kind(area: &mut [u64], kind: Kind, other: Kind) {
    run_all(area, kind);
    run_bad(area, kind);
    test_text::word(b"  given to the other policy: ");
    run(area, other, b"\x01\x04");
    run_five(area, kind);
}

// Whether the words 4 to 42 of the header, in which nothing is kept, are as they were before `new`: sevens. No contract
// says so.
fn unused_kept(area: &[u64]) -> bool {
    match area.get(4..43) {
        Some(unused) => unused.iter().all(|w| *w == 7),
        None => false,
    }
}

fn put_header(area: &[u64]) {
    let hint = word(area, 3);
    let is_kept = unused_kept(area);
    test_text::field(b"header: word 3 is ", hint);
    if is_kept {
        test_text::word(b", words 4 to 42 as before");
    }
    test_text::word(b"\n");
}

fn main() {
    let mut area = [7; 184];
    run_kind(&mut area, Kind::Arc, Kind::Car);
    run_kind(&mut area, Kind::Car, Kind::Arc);
    put_header(&area);
}
