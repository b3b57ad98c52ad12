// The program `pace`: how fast a batch is. Arguments KIND (1 ARC, 2 CAR), CAPACITY and REPEATS; operations on
// standard input, without a kind byte and a capacity. The trace is read whole; then it is run that often, each time
// on a fresh cache, and the counts of the last run are told on one line: gets, hits, updates, new pages, evictions,
// steps, removals; or the refusal, `stop R at O`.
//
// An array has at most 524,288 elements, so the trace lies in eight pieces, 4 MB together. Each holds whole
// operations: what a piece has of an operation that it cuts moves to the start of the next. An area is opened once in
// each run, as a batch does, and then run on every piece. The ends of operations are found here and not by
// `trace::check`: with that in the program the reader has two callers and is not inlined into the batch (D58). Where
// REPEATS is 0 a trace of any length is run once, while it is read: one buffer is filled again and again. The counts
// are then told in any case, and after them the last line of the replay program: `end N` after N operations, or `stop
// R at O`, where the counts are those of the operations before byte O.
#![tactic(auto)]

ghost use Rattle.std.specs.Prelude.{◌≡◌, ◌<◌, ◌≤◌, IfSome, IfOk, length};
ghost use Rattle.pace.specs.Ready.{Ready};

use batch::{Counts, Stopped, Tally};
use refusals::Refusal;
use rules::Kind;
use std::env::Env;

// The file descriptors of standard input, standard output and standard error.
const STDIN_FILENO: i32 = 0;

const STDOUT_FILENO: i32 = 1;

const STDERR_FILENO: i32 = 2;

// What is to be run.
#[derive(Clone, Copy)]
struct Job {
    kind: Kind,
    capacity: u64,
    repeats: u64,
}

// The bytes of a piece: the longest array that there is.
const PIECE: usize = 524288;

// The pieces of a trace.
const PIECES: usize = 8;

// A piece of the trace: how many of its bytes are read, and where its whole operations end.
#[derive(Clone, Copy)]
struct Piece {
    bytes: [u8; PIECE],
    filled: usize,
    end: usize,
}

// How far a run is: the counts, the operations done, the bytes passed, and the refusal that stopped it there, if any.
#[derive(Clone, Copy)]
struct Run {
    counts: Counts,
    done: u64,
    passed: u64,
    refusal: Option<Refusal>,
}

// Where a run that reads stands: the run, how many bytes wait at the start of the buffer, and whether to go on.
#[derive(Clone, Copy)]
struct Standing {
    run: Run,
    kept: usize,
    more: bool,
}

// ---- the command line

// One more digit; no number here has more than nine.
fn digit(value: u64, byte: u8) -> Option<u64> {
    if !byte.is_ascii_digit() {
        return None;
    }
    if 99999999 < value {
        return None;
    }
    Some(10 * value + u64::from(byte - b'0'))
}

// The number that the digits say. By hand, since `parse` takes a sign.
fn number(digits: &[u8]) -> Option<u64> {
    if digits.is_empty() {
        return None;
    }
    let mut value: u64 = 0;
    for byte in digits {
        value = digit(value, *byte)?;
    }
    Some(value)
}

// Argument i as a number; none where it is missing, or longer than 16 bytes.
fn argument(env: &impl Env, i: usize) -> Option<u64> {
    let mut text = [0u8; 16];
    let n = env.arg(i, &mut text).ok()?;
    number(&text[..n])
}

// The policy that a number names.
fn kind_of(number: u64) -> Option<Kind> {
    match number {
        1 => Some(Kind::Arc),
        2 => Some(Kind::Car),
        _ => None,
    }
}

// What the command line asks for.
fn read_job(env: &impl Env) -> Option<Job> {
    let kind = kind_of(argument(env, 1)?)?;
    let capacity = argument(env, 2)?;
    let repeats = argument(env, 3)?;
    if 1024 < capacity {
        return None;
    }
    Some(Job {
        kind,
        capacity,
        repeats,
    })
}

// ---- reading the trace

// The bytes of a piece, or of a trace that is run while it is read. A function, so that a caller's proof has only their
// number, and not the bytes.
fn buffer() -> [u8; PIECE]
    ensures { 524288 ≡ length result }
{
    [0; PIECE]
}

// The place behind the number at `from`; none where the bytes end before it does. Its form is the batch's to judge.
fn past_number(bytes: &[u8], from: usize) -> Option<usize>
    ensures { IfSome result (λ past. (from < past) × (past ≤ length bytes.now)) }
{
    let last = bytes.get(from..)?.iter().position(|b| *b < 128)?;
    Some(from + last + 1)
}

// The place behind the operation at a place; none where the bytes end before it does.
fn past_operation(bytes: &[u8], at: usize) -> Option<usize>
    requires { at < length bytes.now }
    ensures { IfSome result (λ past. (at < past) × (past ≤ length bytes.now)) }
{
    match bytes[at] {
        4 => Some(at + 1),
        2 => past_number(bytes, past_number(bytes, at + 1)?),
        _ => past_number(bytes, at + 1),
    }
}

// Where the whole operations end.
fn whole(bytes: &[u8]) -> usize
    ensures { result ≤ length bytes.now }
{
    let mut at: usize = 0;
    while at < bytes.len() {
        let Some(past) = past_operation(bytes, at) else {
            return at;
        };
        at = past;
    }
    at
}

// Where the operations of a buffer with so many bytes end: while the input goes on, the whole ones; else all, whole
// or not.
fn end_of(bytes: &[u8], filled: usize, more: bool) -> usize {
    if more { whole(bytes) } else { filled }
}

// Reads behind the bytes kept; how many bytes the buffer has then.
fn refill(bytes: &mut [u8], kept: usize) -> usize
    requires { kept ≤ length bytes.old }
    ensures { result ≤ length bytes.new }
{
    let room = bytes.len() - kept;
    let got = io::read_full(STDIN_FILENO, &mut bytes[kept..]);
    kept + got.min(room)
}

// A piece is filled, behind the bytes of the operation that the one before cuts.
fn fill(piece: &mut Piece, carried: &[u8]) {
    let kept = carried.len().min(PIECE);
    piece.bytes[..kept].copy_from_slice(&carried[..kept]);
    piece.filled = refill(&mut piece.bytes, kept);
    piece.end = end_of(&piece.bytes, piece.filled, piece.filled == PIECE);
}

// The bytes of the operation that a piece cuts.
fn cut(piece: &Piece) -> &[u8] {
    piece.bytes.get(piece.end..piece.filled).unwrap_or(b"")
}

// The trace is read; whether it fits the pieces. A piece that is not full is the last.
fn read_trace(pieces: &mut [Piece]) -> bool {
    let mut carried: &[u8] = b"";
    let all = pieces.iter_mut();
    for piece in all {
        fill(piece, carried);
        if piece.filled < PIECE {
            return true;
        }
        carried = cut(piece);
    }
    false
}

// ---- running it
fn start() -> Run {
    Run {
        counts: Counts::default(),
        done: 0,
        passed: 0,
        refusal: None,
    }
}

// The counts of two pieces together.
fn sum(a: Counts, b: Counts) -> Counts {
    Counts {
        gets: a.gets.wrapping_add(b.gets),
        get_hits: a.get_hits.wrapping_add(b.get_hits),
        updates: a.updates.wrapping_add(b.updates),
        new_pages: a.new_pages.wrapping_add(b.new_pages),
        evictions: a.evictions.wrapping_add(b.evictions),
        steps: a.steps.wrapping_add(b.steps),
        removals: a.removals.wrapping_add(b.removals),
    }
}

// The run with a piece of n bytes more.
fn joined(r: Run, n: usize, tally: Tally) -> Run {
    let counts = sum(r.counts, tally.counts);
    let ran = tally.ran;
    match ran {
        Ok(operations) => Run {
            counts,
            done: r.done.wrapping_add(operations),
            passed: r.passed.wrapping_add(n as u64),
            refusal: None,
        },
        Err(Stopped::Trace { refusal, offset }) => Run {
            counts,
            done: r.done,
            passed: r.passed.wrapping_add(offset),
            refusal: Some(refusal),
        },
        Err(Stopped::State) => r,
    }
}

// A piece of the trace; none after a refusal.
fn run_piece(area: &mut [u64], c: usize, kind: Kind, bytes: &[u8], end: usize, r: Run) -> Run
    requires { Ready kind c area.old }
    ensures { Ready kind c area.new }
{
    if r.refusal.is_some() {
        return r;
    }
    let n = end.min(bytes.len());
    let tally = batch::run(area, c, kind, &bytes[..n]);
    joined(r, n, tally)
}

// All pieces of the trace.
fn run_pieces(area: &mut [u64], c: usize, kind: Kind, pieces: &[Piece]) -> Run
    requires { Ready kind c area.old }
{
    let mut r = start();
    for piece in pieces {
        r = run_piece(area, c, kind, &piece.bytes, piece.end, r);
    }
    r
}

// A fresh cache, opened as a batch opens it.
fn fresh(area: &mut [u64], job: Job) -> Result<usize, Refusal>
    ensures { IfOk result (λ c. Ready job.kind c area.new) }
{
    let header = contracts::number(job.kind);
    empty_cache::new(area, header, job.capacity)?;
    opening::open(area, job.kind)
}

// The whole trace, on a fresh cache.
fn run_once(area: &mut [u64], job: Job, pieces: &[Piece]) -> Run {
    match fresh(area, job) {
        Ok(c) => run_pieces(area, c, job.kind, pieces),
        Err(_) => start(),
    }
}

// The trace as often as was asked for; the last run.
fn run_all(area: &mut [u64], job: Job, pieces: &[Piece]) -> Run {
    let mut last = start();
    for _ in 0..job.repeats {
        last = run_once(area, job, pieces);
    }
    last
}

// The words of a cache of 1,024 frames: 24 * 1024 + 64.
fn area() -> [u64; 24640]
    ensures { 24640 ≡ length result }
{
    [0; 24640]
}

// ---- running it while it is read
// Where the operations to run end. A buffer that is full and has no whole operation holds one that no rule reads: it is
// run, to be refused.
fn end_to_run(bytes: &[u8], filled: usize, more: bool) -> usize {
    let end = end_of(bytes, filled, more);
    if end == 0 { filled } else { end }
}

// Moves the bytes from a place up to another, or to the end, to the front; how many they are.
fn to_front(bytes: &mut [u8], from: usize, to: usize) -> usize {
    if from <= to && to <= bytes.len() {
        return input_buffer::keep(bytes, from, to);
    }
    0
}

// One turn: reads behind the bytes kept, runs the whole operations, and keeps the others.
fn turn(area: &mut [u64], c: usize, kind: Kind, bytes: &mut [u8], s: Standing) -> Standing
    requires { Ready kind c area.old }
    ensures { Ready kind c area.new }
{
    let kept = s.kept.min(bytes.len());
    let filled = refill(bytes, kept);
    let full = filled == bytes.len();
    let end = end_to_run(bytes, filled, full);
    let before = s.run;
    let run = run_piece(area, c, kind, bytes, end, before);
    let left = to_front(bytes, end, filled);
    Standing {
        run,
        kept: left,
        more: full && run.refusal.is_none(),
    }
}

// A proved loop has to end, and nothing says that the input does: the turns have a bound, which no run uses up.
fn run_reading(area: &mut [u64], c: usize, kind: Kind, bytes: &mut [u8]) -> Run
    requires { Ready kind c area.old }
{
    let mut s = Standing {
        run: start(),
        kept: 0,
        more: true,
    };
    for _ in 0..u64::MAX {
        s = turn(area, c, kind, bytes, s);
        if !s.more {
            return s.run;
        }
    }
    s.run
}

// The input, on a fresh cache.
fn run_input(area: &mut [u64], job: Job, bytes: &mut [u8]) -> Run {
    match fresh(area, job) {
        Ok(c) => run_reading(area, c, job.kind, bytes),
        Err(_) => start(),
    }
}

// ---- telling
// A count, and what stands behind it.
fn tell(n: u64, behind: &[u8]) {
    io::print_decimal(STDOUT_FILENO, n);
    io::write_all(STDOUT_FILENO, behind);
}

fn tell_counts(n: Counts) {
    for count in [
        n.gets,
        n.get_hits,
        n.updates,
        n.new_pages,
        n.evictions,
        n.steps,
    ] {
        tell(count, b" ");
    }
    tell(n.removals, b"\n");
}

// The refusal, as the replay program tells it.
fn tell_stop(refusal: Refusal, passed: u64) {
    io::write_all(STDOUT_FILENO, b"stop ");
    tell(u64::from(refusal.number()), b" at ");
    tell(passed, b"\n");
}

// The counts, or the refusal.
fn tell_run(r: Run) {
    match r.refusal {
        None => tell_counts(r.counts),
        Some(refusal) => tell_stop(refusal, r.passed),
    }
}

// The counts, and the last line of the replay program.
fn tell_read(r: Run) {
    tell_counts(r.counts);
    match r.refusal {
        None => {
            io::write_all(STDOUT_FILENO, b"end ");
            tell(r.done, b"\n");
        }
        Some(refusal) => tell_stop(refusal, r.passed),
    }
}

// ---- the two forms of a job

// The trace is read whole, and run as often as was asked for.
fn with_pieces(job: Job) {
    let mut pieces = [Piece {
        bytes: [0; PIECE],
        filled: 0,
        end: 0,
    }; PIECES];
    if !read_trace(&mut pieces) {
        io::write_all(STDERR_FILENO, b"pace: a trace of 4 MB or more\n");
        return;
    }
    let mut area = area();
    let last = run_all(&mut area, job, &pieces);
    tell_run(last);
}

// The trace is run once, while it is read.
fn with_one(job: Job) {
    let mut area = area();
    let mut bytes = buffer();
    let last = run_input(&mut area, job, &mut bytes);
    tell_read(last);
}

fn do_job(job: Job) {
    if job.repeats == 0 {
        with_one(job);
    } else {
        with_pieces(job);
    }
}

fn main(rt: HostRuntime) {
    match read_job(&rt) {
        Some(job) => do_job(job),
        None => {
            io::write_all(
                STDERR_FILENO,
                b"usage: pace KIND CAPACITY REPEATS <TRACE, KIND being 1 ARC or 2 CAR, CAPACITY at most 1024\n",
            );
        }
    }
}
