// The test program `states` (oracle/README.md): on each case of standard input the answers, the state after each
// operation, the counts of the batch and the listing. The operations are public calls; the states are read from the
// words of the area by docs/LAYOUT.md, and not by the library, so that this is a second reading of them. What is
// right, crates/states/stdout, comes from the Rust oracle (oracle/make_vectors).
#![tactic(auto)]

ghost use Rattle.std.specs.Prelude.{◌≡◌, ◌≤◌, length};

use answers::{Inserted, Reply};
use batch::Counts;
use listing::Record;
use numbers::Numeral;
use refusals::Refusal;
use rules::Kind;
use test_text::area_words::{behind, capacity, count, next, page_of, word};
use trace::{Cursor, Found, Operation};

// How states are told: number by number, or by the digest of the numbers.
#[derive(Clone, Copy, PartialEq, Eq)]
enum Mode {
    Whole,
    Digest,
}

// What is told of a state so far: how it is told, and the digest of the numbers.
#[derive(Clone, Copy)]
struct Sink {
    mode: Mode,
    digest: u64,
}

// What the cells of a ring are, and so which numbers are told of each.
#[derive(Clone, Copy)]
enum Cells {
    Arc,
    Car,
    B1,
    B2,
    Free,
}

// ---- what is told

// The digest with one more number below 2^32 (oracle/README.md).
fn mixed(h: u64, n: u64) -> u64 {
    let low = h % 4294967296;
    let high = h / 4294967296;
    let scaled = low * 4294957665;
    let sum = test_text::plus(scaled, high);
    test_text::plus(sum, n % 4294967296)
}

// A number: its text where the state is told whole, and the digest with it.
fn tell(s: Sink, n: u64) -> Sink {
    let digest = mixed(s.digest, n);
    if s.mode == Mode::Whole {
        test_text::field(b" ", n);
    }
    Sink {
        mode: s.mode,
        digest,
    }
}

// A page, which counts as two numbers of the digest.
fn tell_page(s: Sink, page: u64) -> Sink {
    let low = mixed(s.digest, page % 4294967296);
    let digest = mixed(low, page / 4294967296);
    if s.mode == Mode::Whole {
        test_text::field(b" ", page);
    }
    Sink {
        mode: s.mode,
        digest,
    }
}

// A resident: page and frame, and CAR's slot and bit.
fn tell_resident(area: &[u64], c: usize, slot: usize, s: Sink) -> Sink
    requires { c ≤ 1024 }
{
    let page = page_of(area, c, slot);
    let frame = behind(area, 46, slot);
    let paged = tell_page(s, page);
    tell(paged, frame)
}

fn tell_marks(area: &[u64], c: usize, slot: usize, s: Sink) -> Sink
    requires { c ≤ 1024 }
{
    let bit = behind(area, 2 * c + 46, slot);
    let slotted = tell(s, slot as u64);
    tell(slotted, bit)
}

// A ghost, whose places of the lookup start at a place.
fn tell_ghost(area: &[u64], c: usize, start: usize, cell: usize, s: Sink) -> Sink
    requires { c ≤ 1024 }
{
    let page = page_of(area, c, start.saturating_add(cell));
    tell_page(s, page)
}

fn tell_cell(area: &[u64], c: usize, cells: Cells, cell: usize, s: Sink) -> Sink
    requires { c ≤ 1024 }
{
    match cells {
        Cells::Arc => tell_resident(area, c, cell, s),
        Cells::Car => {
            let told = tell_resident(area, c, cell, s);
            tell_marks(area, c, cell, told)
        }
        Cells::B1 => tell_ghost(area, c, c, cell, s),
        Cells::B2 => tell_ghost(area, c, 2 * c, cell, s),
        Cells::Free => tell(s, cell as u64),
    }
}

// So many cells of the ring of a sentinel, from its first on.
fn tell_ring(
    area: &[u64],
    links: usize,
    sentinel: usize,
    n: usize,
    c: usize,
    cells: Cells,
    s: Sink,
) -> Sink
    requires { c ≤ 1024 }
{
    let mut told = s;
    let mut cell = next(area, links, sentinel);
    for _ in 0..n {
        told = tell_cell(area, c, cells, cell, told);
        cell = next(area, links, cell);
    }
    told
}

fn residents_of(kind: Kind) -> Cells {
    match kind {
        Kind::Arc => Cells::Arc,
        Kind::Car => Cells::Car,
    }
}

// T1, T2, and for CAR the free slots: the rings of the sentinels c, c + 1 and c + 2 of the residents' links.
fn tell_slots(area: &[u64], c: usize, i: usize, cells: Cells, s: Sink) -> Sink
    requires { (c ≤ 1024) × (i ≤ 2) }
{
    let n = count(area, 43 + i);
    let links = 3 * c + 46;
    tell_ring(area, links, c + i, n, c, cells, s)
}

fn tell_ghosts(area: &[u64], c: usize, start: usize, cells: Cells, s: Sink) -> Sink
    requires { (c ≤ 1024) × (start ≤ 8192) }
{
    let n = count(area, start);
    tell_ring(area, start + 1, c, n, c, cells, s)
}

fn tell_word(area: &[u64], i: usize, s: Sink) -> Sink {
    let w = word(area, i);
    tell(s, w)
}

// Kind, capacity and target.
fn tell_header(area: &[u64], s: Sink) -> Sink {
    let kind = tell_word(area, 0, s);
    let sized = tell_word(area, 1, kind);
    tell_word(area, 2, sized)
}

// The lengths of T1, T2, B1 and B2.
fn tell_lengths(area: &[u64], c: usize, s: Sink) -> Sink
    requires { c ≤ 1024 }
{
    let b1 = 5 * c + 52;
    let b2 = 7 * c + 57;
    let recent = tell_word(area, 43, s);
    let frequent = tell_word(area, 44, recent);
    let ghosts = tell_word(area, b1, frequent);
    tell_word(area, b2, ghosts)
}

// T1 and T2, then B1 and B2.
fn tell_residents(area: &[u64], c: usize, cells: Cells, s: Sink) -> Sink
    requires { c ≤ 1024 }
{
    let recent = tell_slots(area, c, 0, cells, s);
    tell_slots(area, c, 1, cells, recent)
}

fn tell_both_ghosts(area: &[u64], c: usize, s: Sink) -> Sink
    requires { c ≤ 1024 }
{
    let b1 = 5 * c + 52;
    let b2 = 7 * c + 57;
    let first = tell_ghosts(area, c, b1, Cells::B1, s);
    tell_ghosts(area, c, b2, Cells::B2, first)
}

fn tell_lists(area: &[u64], c: usize, cells: Cells, s: Sink) -> Sink
    requires { c ≤ 1024 }
{
    let lengths = tell_lengths(area, c, s);
    let residents = tell_residents(area, c, cells, lengths);
    tell_both_ghosts(area, c, residents)
}

// CAR's free slots.
fn tell_free(area: &[u64], c: usize, kind: Kind, s: Sink) -> Sink
    requires { c ≤ 1024 }
{
    match kind {
        Kind::Arc => s,
        Kind::Car => tell_slots(area, c, 2, Cells::Free, s),
    }
}

// The numbers of a state.
fn tell_state(area: &[u64], kind: Kind, steps: u64, s: Sink) -> Sink {
    let c = capacity(area);
    let cells = residents_of(kind);
    let stepped = tell(s, steps);
    let headed = tell_header(area, stepped);
    let listed = tell_lists(area, c, cells, headed);
    tell_free(area, c, kind, listed)
}

// The digest of a state, whose numbers are told where the mode says so.
fn digest_of(area: &[u64], kind: Kind, steps: u64, mode: Mode) -> u64 {
    let start = Sink { mode, digest: 0 };
    let s = tell_state(area, kind, steps, start);
    s.digest
}

// The state's line: whole, or its digest.
fn put_state(area: &[u64], kind: Kind, mode: Mode, steps: u64) {
    match mode {
        Mode::Whole => {
            test_text::word(b"state");
            digest_of(area, kind, steps, mode);
        }
        Mode::Digest => {
            let digest = digest_of(area, kind, steps, mode);
            test_text::number(digest);
        }
    }
    test_text::word(b"\n");
}

// The library's lines ask for a buffer with room.
fn line() -> [u8; 64]
    ensures { 64 ≡ length result }
{
    [0; 64]
}

fn put_reply(reply: Result<Reply, Refusal>) {
    let mut out = line();
    let end = lines::put_reply(&mut out, 0, reply);
    test_text::flush(&out, end);
}

fn put_end(n: u64) {
    let mut out = line();
    let end = lines::put_end(&mut out, 0, n);
    test_text::flush(&out, end);
}

fn put_stop(refusal: Refusal, offset: u64) {
    let mut out = line();
    let end = lines::put_stop(&mut out, 0, refusal.number(), offset);
    test_text::flush(&out, end);
}

// ---- the calls

// The replacement steps that an answer tells.
fn steps_of(reply: Result<Reply, Refusal>) -> u64 {
    match reply {
        Ok(Reply::Inserted(Inserted::Out { steps, .. })) => steps,
        _ => 0,
    }
}

// The call of an operation.
fn call(area: &mut [u64], kind: Kind, op: Operation) -> Result<Reply, Refusal> {
    let reply = match op {
        Operation::Get { page } => Reply::Got(public_calls::get(area, kind, page)?),
        Operation::Insert { page, frame } => {
            Reply::Inserted(public_calls::insert(area, kind, page, frame)?)
        }
        Operation::Remove { page } => Reply::Gone(public_calls::remove(area, kind, page)?),
        Operation::Clear => {
            public_calls::clear(area, kind)?;
            Reply::Cleared
        }
        Operation::Peek { page } => Reply::Seen(public_calls::peek(area, kind, page)?),
    };
    Ok(reply)
}

// One operation: its line and its state's.
fn run_one(area: &mut [u64], kind: Kind, mode: Mode, op: Operation) {
    let reply = call(area, kind, op);
    put_reply(reply);
    put_state(area, kind, mode, steps_of(reply));
}

// The last line, where a refusal stops the operations. `head` bytes of the case stand before them.
fn put_refused(head: u64, refusal: Refusal, offset: u64) {
    let stop = test_text::plus(head, offset);
    put_stop(refusal, stop);
}

// The operations one after the other, and the last line.
fn run_all(area: &mut [u64], kind: Kind, mode: Mode, trace: &[u8], head: u64) {
    let mut cursor = Cursor::new();
    let mut done: u64 = 0;
    for _ in 0..u64::MAX {
        let step = cursor.step(trace);
        let found = step.found;
        match found {
            Found::Read(op) => {
                run_one(area, kind, mode, op);
                cursor = step.cursor;
                done = test_text::plus(done, 1);
            }
            Found::End => {
                put_end(done);
                return;
            }
            Found::Refused { refusal, offset } => {
                put_refused(head, refusal, offset as u64);
                return;
            }
        }
    }
}

// ---- the batch

fn put_counts(n: Counts) {
    let mut before: &[u8] = b"counts ";
    for count in [
        n.gets,
        n.get_hits,
        n.updates,
        n.new_pages,
        n.evictions,
        n.steps,
        n.removals,
    ] {
        test_text::field(before, count);
        before = b" ";
    }
}

// The whole trace again by the library's batch: its counts, and the digest of the state it leaves.
fn run_batch(area: &mut [u64], kind: Kind, trace: &[u8]) {
    let t = batch::tally_up(area, kind, trace, Counts::default());
    let counts = t.counts;
    put_counts(counts);
    let digest = digest_of(area, kind, 0, Mode::Digest);
    test_text::field(b" ", digest);
    test_text::word(b"\n");
}

// ---- the listing

fn put_record(r: Record) {
    test_text::field(b" ", r.page);
    test_text::field(b" ", r.frame as u64);
}

fn put_records(records: [Record; 1024], n: usize) {
    for r in records.iter().take(n) {
        put_record(*r);
    }
}

fn put_list(area: &[u64], kind: Kind) {
    let all = listing::list_all(area, kind);
    let answer = all.answer;
    let records = all.records;
    let n = answer.unwrap_or(0);
    test_text::field(b"list ", n);
    put_records(records, n as usize);
    test_text::word(b"\n");
}

// ---- a case

// A case whose head is read, of so many bytes: the calls on one area, and the batch on another.
fn run_case(
    area: &mut [u64],
    other: &mut [u64],
    kind: Kind,
    c: u64,
    mode: Mode,
    trace: &[u8],
    head: u64,
) {
    let _ = public_calls::new(area, kind, c);
    run_all(area, kind, mode, trace, head);
    let _ = public_calls::new(other, kind, c);
    run_batch(other, kind, trace);
    put_list(area, kind);
}

// The capacity and the operations behind the kind byte.
fn run_kind(area: &mut [u64], other: &mut [u64], kind: Kind, mode: Mode, bytes: &[u8]) {
    let Ok(Numeral { value, used }) = numbers::read_frame(bytes) else {
        put_stop(Refusal::Number, 1);
        return;
    };
    if 1024 < value {
        put_stop(Refusal::Capacity, 1);
        return;
    }
    if let Some(trace) = bytes.get(used..) {
        let head = test_text::plus(1, used as u64);
        run_case(area, other, kind, value as u64, mode, trace, head);
    }
}

fn run_input(area: &mut [u64], other: &mut [u64], mode: Mode, input: &[u8]) {
    let Some((kind, bytes)) = input.split_first() else {
        put_stop(Refusal::Number, 0);
        return;
    };
    match *kind {
        1 => run_kind(area, other, Kind::Arc, mode, bytes),
        2 => run_kind(area, other, Kind::Car, mode, bytes),
        _ => put_stop(Refusal::Operation, 0),
    }
}

// ---- standard input

// The mode that a byte asks for.
fn mode_of(byte: u8) -> Mode {
    if byte == 0 { Mode::Whole } else { Mode::Digest }
}

// The bytes of a case behind its mode and its length; whether another case may follow.
fn run_body(area: &mut [u64], other: &mut [u64], mode: Mode, bytes: &mut [u8], n: usize) -> bool {
    if test_text::read(bytes, n) {
        if let Some(input) = bytes.get(..n) {
            run_input(area, other, mode, input);
            return true;
        }
    }
    false
}

// A case's mode, its length and its bytes; whether another case may follow.
fn read_case(area: &mut [u64], other: &mut [u64], bytes: &mut [u8]) -> bool {
    if test_text::read(bytes, 3) {
        let mode = mode_of(test_text::byte_at(bytes, 0));
        let n = test_text::pair_at(bytes, 1);
        return run_body(area, other, mode, bytes, n);
    }
    false
}

// A proved loop has to end, and nothing says that the input does: the turns have a bound, which no run uses up.
fn run(area: &mut [u64], other: &mut [u64], bytes: &mut [u8]) {
    for _ in 0..u64::MAX {
        if !read_case(area, other, bytes) {
            return;
        }
    }
}

// An area for the largest cache: 24 * 1,024 + 64 words.
fn words() -> [u64; 24640]
    ensures { 24640 ≡ length result }
{
    [0; 24640]
}

fn main() {
    let mut area = words();
    let mut other = words();
    let mut bytes = io::large_buffer();
    run(&mut area, &mut other, &mut bytes);
}
