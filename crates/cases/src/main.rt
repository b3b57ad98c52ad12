// The test program `cases`: the cases P1 to P8 of RULES 11, what is run only, and every refusal number, through public
// calls. A line for each. The file stdout is written by hand from docs/RULES.md; the lists are read from the words of
// the area by docs/LAYOUT.md.
#![tactic(auto)]

ghost use Rattle.std.specs.Prelude.{◌≡◌, ◌≤◌, length};

use answers::{Inserted, Place};
use arc_core::ArcCore;
use batch::{Counts, Stopped, Tally};
use car_core::CarCore;
use listing::Record;
use refusals::Refusal;
use rules::Kind;
use test_text::area_words::{capacity, count, next, page_of, word};
use trace::{Cursor, Found, Operation};

// What the cells of a ring are: a resident's slots, or a ghost list's cells.
#[derive(Clone, Copy)]
enum Cells {
    Slots,
    B1,
    B2,
}

// ---- the lists

// Which place of the lookup a cell of a ring has.
fn place_of(c: usize, cells: Cells, cell: usize) -> usize
    requires { c ≤ 1024 }
{
    match cells {
        Cells::Slots => cell,
        Cells::B1 => cell.saturating_add(c),
        Cells::B2 => cell.saturating_add(2 * c),
    }
}

fn put_page(area: &[u64], c: usize, cells: Cells, cell: usize)
    requires { c ≤ 1024 }
{
    let place = place_of(c, cells, cell);
    let page = page_of(area, c, place);
    test_text::field(b" ", page);
}

// The pages of so many cells of the ring of a sentinel, from its first on.
fn put_ring(area: &[u64], links: usize, sentinel: usize, n: usize, c: usize, cells: Cells)
    requires { c ≤ 1024 }
{
    let mut cell = next(area, links, sentinel);
    for _ in 0..n {
        put_page(area, c, cells, cell);
        cell = next(area, links, cell);
    }
}

fn put_t1(area: &[u64], c: usize)
    requires { c ≤ 1024 }
{
    let n = count(area, 43);
    test_text::word(b"; T1");
    put_ring(area, 3 * c + 46, c, n, c, Cells::Slots);
}

fn put_t2(area: &[u64], c: usize)
    requires { c ≤ 1024 }
{
    let n = count(area, 44);
    test_text::word(b"; T2");
    put_ring(area, 3 * c + 46, c + 1, n, c, Cells::Slots);
}

fn put_b1(area: &[u64], c: usize)
    requires { c ≤ 1024 }
{
    let start = 5 * c + 52;
    let n = count(area, start);
    test_text::word(b"; B1");
    put_ring(area, start + 1, c, n, c, Cells::B1);
}

fn put_b2(area: &[u64], c: usize)
    requires { c ≤ 1024 }
{
    let start = 7 * c + 57;
    let n = count(area, start);
    test_text::word(b"; B2");
    put_ring(area, start + 1, c, n, c, Cells::B2);
}

fn put_target(area: &[u64]) {
    let target = word(area, 2);
    test_text::field(b"; target ", target);
}

fn put_record(r: Record) {
    test_text::field(b" ", r.page);
}

fn put_records(records: [Record; 1024], n: usize) {
    for r in records.iter().take(n) {
        put_record(*r);
    }
}

// The pages that a listing gives.
fn put_list(area: &[u64], kind: Kind) {
    let all = listing::list_all(area, kind);
    let answer = all.answer;
    let records = all.records;
    test_text::word(b"; list");
    put_records(records, answer.unwrap_or(0) as usize);
}

// The numbers that the calls tell: how many are resident, the capacity, the target, the lengths of T1, T2, B1 and B2.
fn put_counted(counted: Result<u64, Refusal>) {
    match counted {
        Ok(n) => test_text::field(b" ", n),
        Err(_) => test_text::word(b" refused"),
    }
}

fn put_sizes(area: &[u64], kind: Kind) {
    match kind {
        Kind::Arc => {
            put_counted(ArcCore::len(area));
            put_counted(ArcCore::capacity(area));
            put_counted(ArcCore::p_value(area));
        }
        Kind::Car => {
            put_counted(CarCore::len(area));
            put_counted(CarCore::capacity(area));
            put_counted(CarCore::p_value(area));
        }
    }
}

fn put_lengths(area: &[u64], kind: Kind) {
    match kind {
        Kind::Arc => {
            put_counted(ArcCore::t1_len(area));
            put_counted(ArcCore::t2_len(area));
            put_counted(ArcCore::b1_len(area));
            put_counted(ArcCore::b2_len(area));
        }
        Kind::Car => {
            put_counted(CarCore::t1_len(area));
            put_counted(CarCore::t2_len(area));
            put_counted(CarCore::b1_len(area));
            put_counted(CarCore::b2_len(area));
        }
    }
}

fn put_numbers(area: &[u64], kind: Kind) {
    test_text::word(b"; numbers");
    put_sizes(area, kind);
    put_lengths(area, kind);
}

// Of the pages 1 to 10 those that `contains` holds for resident.
fn held(area: &[u64], kind: Kind, page: u64) -> Result<bool, Refusal> {
    match kind {
        Kind::Arc => ArcCore::contains(area, page),
        Kind::Car => CarCore::contains(area, page),
    }
}

fn put_held(area: &[u64], kind: Kind, page: u64) {
    match held(area, kind, page) {
        Ok(true) => test_text::field(b" ", page),
        Ok(false) => (),
        Err(_) => test_text::word(b" refused"),
    }
}

fn put_low(area: &[u64], kind: Kind) {
    put_held(area, kind, 1);
    put_held(area, kind, 2);
    put_held(area, kind, 3);
    put_held(area, kind, 4);
    put_held(area, kind, 5);
}

fn put_high(area: &[u64], kind: Kind) {
    put_held(area, kind, 6);
    put_held(area, kind, 7);
    put_held(area, kind, 8);
    put_held(area, kind, 9);
    put_held(area, kind, 10);
}

fn put_holds(area: &[u64], kind: Kind) {
    test_text::word(b"; holds");
    put_low(area, kind);
    put_high(area, kind);
}

fn put_facts(area: &[u64], kind: Kind) {
    let c = capacity(area);
    put_t1(area, c);
    put_t2(area, c);
    put_b1(area, c);
    put_b2(area, c);
    put_target(area);
    put_list(area, kind);
    put_numbers(area, kind);
    put_holds(area, kind);
}

// ---- the answers

fn put_refusal(refusal: Refusal) {
    test_text::field(b"refusal ", u64::from(refusal.number()));
}

fn put_place(place: Place) {
    match place {
        Place::B1 => test_text::word(b" b1"),
        Place::B2 => test_text::word(b" b2"),
    }
}

fn put_out(page: u64, frame: u32, place: Place, steps: u64) {
    test_text::field(b" new out ", page);
    test_text::field(b" ", frame as u64);
    put_place(place);
    test_text::field(b" by ", steps);
}

fn put_inserted(r: Result<Inserted, Refusal>) {
    match r {
        Ok(Inserted::New) => test_text::word(b" new"),
        Ok(
            Inserted::Out {
                page,
                frame,
                place,
                steps,
            },
        ) => put_out(page, frame, place, steps),
        Ok(Inserted::Old(frame)) => test_text::field(b" old ", frame as u64),
        Ok(Inserted::None) => test_text::word(b" none"),
        Err(_) => test_text::word(b" refused"),
    }
}

// What a get, a remove or a peek answered: the frame, or that there is none.
fn put_frame(r: Result<Option<u32>, Refusal>, found: &[u8], none: &[u8]) {
    match r {
        Ok(Some(frame)) => test_text::field(found, frame as u64),
        Ok(None) => test_text::word(none),
        Err(_) => test_text::word(b" refused"),
    }
}

// ---- the calls

fn get(area: &mut [u64], kind: Kind, page: u64) -> Result<Option<u32>, Refusal> {
    match kind {
        Kind::Arc => ArcCore::get(area, page),
        Kind::Car => CarCore::get(area, page),
    }
}

fn insert(area: &mut [u64], kind: Kind, page: u64, frame: u32) -> Result<Inserted, Refusal> {
    match kind {
        Kind::Arc => ArcCore::insert(area, page, frame),
        Kind::Car => CarCore::insert(area, page, frame),
    }
}

fn remove(area: &mut [u64], kind: Kind, page: u64) -> Result<Option<u32>, Refusal> {
    match kind {
        Kind::Arc => ArcCore::remove(area, page),
        Kind::Car => CarCore::remove(area, page),
    }
}

fn peek(area: &[u64], kind: Kind, page: u64) -> Result<Option<u32>, Refusal> {
    match kind {
        Kind::Arc => ArcCore::peek(area, page),
        Kind::Car => CarCore::peek(area, page),
    }
}

fn clear(area: &mut [u64], kind: Kind) -> Result<(), Refusal> {
    match kind {
        Kind::Arc => ArcCore::clear(area),
        Kind::Car => CarCore::clear(area),
    }
}

fn make(area: &mut [u64], kind: Kind, c: u64) -> Result<(), Refusal> {
    match kind {
        Kind::Arc => ArcCore::new(area, c),
        Kind::Car => CarCore::new(area, c),
    }
}

fn tally(area: &mut [u64], kind: Kind, trace: &[u8], lent: Counts) -> Tally {
    match kind {
        Kind::Arc => ArcCore::tally(area, trace, lent),
        Kind::Car => CarCore::tally(area, trace, lent),
    }
}

// Each call with its answer.
fn run_get(area: &mut [u64], kind: Kind, page: u64) {
    let r = get(area, kind, page);
    put_frame(r, b" hit ", b" miss");
}

fn run_insert(area: &mut [u64], kind: Kind, page: u64, frame: u32) {
    let r = insert(area, kind, page, frame);
    put_inserted(r);
}

fn run_remove(area: &mut [u64], kind: Kind, page: u64) {
    let r = remove(area, kind, page);
    put_frame(r, b" gone ", b" absent");
}

fn run_clear(area: &mut [u64], kind: Kind) {
    match clear(area, kind) {
        Ok(()) => test_text::word(b" clear"),
        Err(_) => test_text::word(b" refused"),
    }
}

fn run_peek(area: &[u64], kind: Kind, page: u64) {
    let r = peek(area, kind, page);
    put_frame(r, b" see ", b" no");
}

fn run_one(area: &mut [u64], kind: Kind, op: Operation) {
    match op {
        Operation::Get { page } => run_get(area, kind, page),
        Operation::Insert { page, frame } => run_insert(area, kind, page, frame),
        Operation::Remove { page } => run_remove(area, kind, page),
        Operation::Clear => run_clear(area, kind),
        Operation::Peek { page } => run_peek(area, kind, page),
    }
}

// The operations of a trace as calls, with their answers.
fn run_all(area: &mut [u64], kind: Kind, trace: &[u8]) {
    let mut cursor = Cursor::new();
    for _ in 0..1024 {
        let step = cursor.step(trace);
        let found = step.found;
        match found {
            Found::Read(op) => {
                run_one(area, kind, op);
                cursor = step.cursor;
            }
            Found::End => {
                return;
            }
            Found::Refused { refusal, .. } => {
                test_text::field(b" refusal ", u64::from(refusal.number()));
                return;
            }
        }
    }
}

// A bench case: an empty cache, the operations, and the state after them.
fn bench(area: &mut [u64], name: &[u8], kind: Kind, c: u64, trace: &[u8]) {
    test_text::word(name);
    let _ = make(area, kind, c);
    run_all(area, kind, trace);
    put_facts(area, kind);
    test_text::word(b"\n");
}

// The operations of P1 and P2 are the same, and those of P4 and P7.
fn p1_or_p2(area: &mut [u64], name: &[u8], kind: Kind) {
    bench(
        area,
        name,
        kind,
        2,
        b"\x02\x05\x0A\x02\x06\x0B\x01\x05\x02\x07\x0C\x02\x05\x0D",
    );
}

fn p3(area: &mut [u64]) {
    bench(
        area,
        b"P3",
        Kind::Arc,
        1,
        b"\x02\x08\x50\x01\x08\x02\x09\x5A\x02\x0A\x64",
    );
}

fn p4_or_p7(area: &mut [u64], name: &[u8], kind: Kind, c: u64) {
    bench(
        area,
        name,
        kind,
        c,
        b"\x02\x01\x0B\x02\x02\x0C\x02\x03\x0D\x03\x02\x02\x04\x0E",
    );
}

fn p5(area: &mut [u64]) {
    bench(
        area,
        b"P5",
        Kind::Arc,
        2,
        b"\x02\x01\x0B\x02\x02\x0C\x02\x03\x0D\x02\x01\x0E",
    );
}

fn p6(area: &mut [u64]) {
    bench(
        area,
        b"P6",
        Kind::Car,
        2,
        b"\x02\x01\x0B\x02\x02\x0C\x01\x01\x01\x02\x02\x03\x0D",
    );
}

fn p8(area: &mut [u64], name: &[u8], kind: Kind) {
    bench(area, name, kind, 0, b"\x02\x01\x0B\x01\x01");
}

fn one_and_two(area: &mut [u64]) {
    p1_or_p2(area, b"P1", Kind::Arc);
    p1_or_p2(area, b"P2", Kind::Car);
}

fn three_and_four(area: &mut [u64]) {
    p3(area);
    p4_or_p7(area, b"P4", Kind::Arc, 2);
}

fn five_to_seven(area: &mut [u64]) {
    p5(area);
    p6(area);
    p4_or_p7(area, b"P7", Kind::Car, 3);
}

fn eight(area: &mut [u64]) {
    p8(area, b"P8 ARC", Kind::Arc);
    p8(area, b"P8 CAR", Kind::Car);
}

fn benches(area: &mut [u64]) {
    one_and_two(area);
    three_and_four(area);
    five_to_seven(area);
    eight(area);
}

// ---- the refusals

// The words of an area into another, as far as it has room.
fn copy(from: &[u64], to: &mut [u64]) {
    let n = from.len().min(to.len());
    to[..n].copy_from_slice(&from[..n]);
}

// Whether the words of an area are those of another, which may be longer.
fn same(area: &[u64], other: &[u64]) -> bool {
    match other.get(..area.len()) {
        Some(front) => area == front,
        None => false,
    }
}

fn put_same(area: &[u64], other: &[u64]) {
    if same(area, other) {
        test_text::word(b", area unchanged\n");
        return;
    }
    test_text::word(b", area changed\n");
}

fn put_after(area: &[u64], other: &[u64]) {
    if same(area, other) {
        test_text::word(b", area as after the operations done\n");
        return;
    }
    test_text::word(b", area not as after the operations done\n");
}

fn put_made(made: Result<(), Refusal>) {
    match made {
        Ok(()) => test_text::word(b"made"),
        Err(refusal) => put_refusal(refusal),
    }
}

fn put_kind(kind: Kind) {
    match kind {
        Kind::Arc => test_text::word(b", ARC: "),
        Kind::Car => test_text::word(b", CAR: "),
    }
}

// The words of an area that has fewer than the largest cache needs.
fn put_words(area: &[u64]) {
    let n = area.len();
    if n < 24640 {
        test_text::field(b" in ", n as u64);
        test_text::word(b" words");
    }
}

// `new` on an area whose words are known.
fn try_new(area: &mut [u64], other: &mut [u64], kind: Kind, c: u64) {
    test_text::field(b"new ", c);
    put_words(area);
    put_kind(kind);
    copy(area, other);
    let made = make(area, kind, c);
    put_made(made);
    put_same(area, other);
}

fn try_both(area: &mut [u64], other: &mut [u64], c: u64) {
    try_new(area, other, Kind::Arc, c);
    try_new(area, other, Kind::Car, c);
}

// Calls that are refused as the area is of ARC and they are of CAR.
fn try_call(area: &mut [u64], other: &mut [u64], name: &[u8], trace: &[u8]) {
    test_text::word(name);
    test_text::word(b", an ARC area given to CAR:");
    copy(area, other);
    run_all(area, Kind::Car, trace);
    put_same(area, other);
}

fn sevens() -> Counts {
    Counts {
        gets: 7,
        get_hits: 7,
        updates: 7,
        new_pages: 7,
        evictions: 7,
        steps: 7,
        removals: 7,
    }
}

fn put_counts(n: Counts) {
    test_text::word(b", counts");
    for count in [
        n.gets,
        n.get_hits,
        n.updates,
        n.new_pages,
        n.evictions,
        n.steps,
        n.removals,
    ] {
        test_text::field(b" ", count);
    }
}

fn put_ran(ran: Result<u64, Stopped>) {
    match ran {
        Ok(n) => test_text::field(b"done ", n),
        Err(Stopped::Trace { refusal, offset }) => {
            put_refusal(refusal);
            test_text::field(b" at ", offset);
        }
        Err(Stopped::State) => test_text::word(b"refusal 3"),
    }
}

// A batch, with lent counts of seven each.
fn run_batch(area: &mut [u64], kind: Kind, trace: &[u8]) {
    let t = tally(area, kind, trace, sevens());
    let ran = t.ran;
    let counts = t.counts;
    put_ran(ran);
    put_counts(counts);
}

// A batch; then whether the area is what the operations before the refusal make of it.
fn try_batch(area: &mut [u64], other: &[u64], name: &[u8], kind: Kind, trace: &[u8]) {
    test_text::word(name);
    run_batch(area, kind, trace);
    put_after(area, other);
}

fn put_listed(answer: Result<u64, Refusal>) {
    match answer {
        Ok(n) => test_text::field(b"listed ", n),
        Err(Refusal::Room) => test_text::word(b"refusal 6"),
        Err(Refusal::State) => test_text::word(b"refusal 3"),
        Err(refusal) => put_refusal(refusal),
    }
}

fn try_listing(area: &[u64], name: &[u8], room: usize) {
    test_text::word(name);
    let plan = listing::prepare(area, Kind::Car, room);
    put_listed(plan.map(|p| p.count as u64));
    test_text::word(b"\n");
}

fn try_list_all(area: &[u64], name: &[u8]) {
    test_text::word(name);
    let all = listing::list_all(area, Kind::Car);
    let answer = all.answer;
    put_listed(answer);
    test_text::word(b"\n");
}

// One word less than the largest cache needs.
fn short_words() -> [u64; 24639]
    ensures { 24639 ≡ length result }
{
    [7; 24639]
}

fn shorts(other: &mut [u64]) {
    let mut short = short_words();
    try_both(&mut short, other, 1024);
}

// Refusals 1 and 2, and what is barely not refused.
fn sizes(area: &mut [u64], other: &mut [u64]) {
    try_both(area, other, 1025);
    try_both(area, other, 1024);
    shorts(other);
}

// Refusal 3: an area of ARC given to CAR.
fn strange_get(area: &mut [u64], other: &mut [u64]) {
    try_call(area, other, b"get", b"\x01\x05");
}

fn strange_insert(area: &mut [u64], other: &mut [u64]) {
    try_call(area, other, b"insert", b"\x02\x05\x0A");
}

fn strange_remove(area: &mut [u64], other: &mut [u64]) {
    try_call(area, other, b"remove", b"\x03\x05");
}

fn strange_peek(area: &mut [u64], other: &mut [u64]) {
    try_call(area, other, b"peek", b"\x05\x05");
}

fn strange_calls(area: &mut [u64], other: &mut [u64]) {
    strange_get(area, other);
    strange_insert(area, other);
    strange_remove(area, other);
    strange_peek(area, other);
}

fn strange_batch(area: &mut [u64], other: &mut [u64]) {
    copy(area, other);
    try_batch(
        area,
        other,
        b"batch, an ARC area given to CAR: ",
        Kind::Car,
        b"\x01\x05",
    );
}

fn strange_numbers(area: &[u64]) {
    test_text::word(b"an ARC area given to CAR");
    put_numbers(area, Kind::Car);
    test_text::word(b"; holds");
    put_held(area, Kind::Car, 5);
    test_text::word(b"\n");
}

fn strangers(area: &mut [u64], other: &mut [u64]) {
    let _ = make(area, Kind::Arc, 2);
    strange_calls(area, other);
    strange_batch(area, other);
    try_listing(area, b"listing, an ARC area given to CAR: ", 9);
    try_list_all(area, b"listing of all, an ARC area given to CAR: ");
    strange_numbers(area);
}

// Refusals 4 and 5, and an empty trace: `other` has the state after the operations that are done.
fn no_bytes(area: &mut [u64], other: &[u64]) {
    try_batch(area, other, b"batch of no bytes: ", Kind::Arc, b"");
}

fn no_code(area: &mut [u64], other: &[u64]) {
    try_batch(area, other, b"batch 06: ", Kind::Arc, b"\x06");
}

fn not_shortest(area: &mut [u64], other: &[u64]) {
    try_batch(area, other, b"batch 01 80 00: ", Kind::Arc, b"\x01\x80\x00");
}

fn code_later(area: &mut [u64], other: &[u64]) {
    try_batch(
        area,
        other,
        b"batch 02 05 0A 00: ",
        Kind::Arc,
        b"\x02\x05\x0A\x00",
    );
}

fn number_missing(area: &mut [u64], other: &[u64]) {
    try_batch(
        area,
        other,
        b"batch 04 02 05 0A 02 06: ",
        Kind::Arc,
        b"\x04\x02\x05\x0A\x02\x06",
    );
}

fn first_stops(area: &mut [u64], other: &[u64]) {
    no_bytes(area, other);
    no_code(area, other);
    not_shortest(area, other);
}

fn later_stops(area: &mut [u64], other: &[u64]) {
    code_later(area, other);
    number_missing(area, other);
}

fn stops(area: &mut [u64], other: &mut [u64]) {
    let _ = make(area, Kind::Arc, 2);
    copy(area, other);
    first_stops(area, other);
    let _ = ArcCore::insert(other, 5, 10);
    later_stops(area, other);
}

// Refusal 6: two residents.
fn two_residents(area: &mut [u64]) {
    let _ = make(area, Kind::Car, 3);
    let _ = CarCore::insert(area, 5, 10);
    let _ = CarCore::insert(area, 6, 11);
}

fn no_residents(area: &mut [u64]) {
    let _ = make(area, Kind::Car, 3);
    try_list_all(area, b"listing of all of an empty cache: ");
}

fn rooms(area: &mut [u64]) {
    no_residents(area);
    two_residents(area);
    try_listing(area, b"listing of two residents into one record: ", 1);
    try_listing(area, b"listing of two residents into two records: ", 2);
    try_list_all(area, b"listing of all two residents: ");
}

fn run(area: &mut [u64], other: &mut [u64]) {
    benches(area);
    sizes(area, other);
    strangers(area, other);
    stops(area, other);
    rooms(area);
}

// An area for the largest cache: 24 * 1,024 + 64 words.
fn words() -> [u64; 24640]
    ensures { 24640 ≡ length result }
{
    [0; 24640]
}

fn main() {
    let mut area = words();
    let mut other = words();
    run(&mut area, &mut other);
}
