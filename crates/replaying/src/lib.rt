// The replay program (RULES 9) on an input that comes in pieces: what it has told and has still to tell, and the code
// that tells it. The caller reads, calls `feed` and writes; nothing here grows with the input.
#![tactic(auto)]

ghost use Rattle.std.specs.Prelude.{◌≡◌, ◌≤◌, length, take};
ghost use Rattle.numbers.specs.Reading.{frame_of};
ghost use Rattle.lines.specs.Lines.{line_room};
ghost use Rattle.replaying.specs.Pending.{area_words, Ready};
ghost use Rattle.replaying.specs.Header.{stop, sized, header_of, Sizes, Fresh};
ghost use Rattle.replaying.specs.Feeding.{needed, Feeds, Wrote, Turns};
ghost use Rattle.replaying.specs.Asked.{Begins, Goes, Runs};

use numbers::Numeral;
use refusals::Refusal;
use rules::Kind;
use trace::{Cursor, Found};

// A replay that runs operations on a cache of a kind and of a capacity: `done` are done, and the next stands at the input's byte
// `offset`.
#[derive(Clone, Copy)]
pub struct Running {
    pub kind: Kind,
    pub c: usize,
    pub offset: u64,
    pub done: u64,
}

// Where a replay stands: nothing was read; operations are run; the last line was told.
#[derive(Clone, Copy)]
pub enum Replay {
    Start,
    Running(Running),
    Ended,
}

// What a feed gives back: where the replay stands then, how many bytes of the input it used up, and how many bytes it wrote.
#[derive(Clone, Copy)]
pub struct Fed {
    pub replay: Replay,
    pub used: usize,
    pub written: usize,
}

// What a turn gives back: where the replay stands then, how many bytes of the input wait at the front of the buffer, and how many bytes of lines there
// are to write.
#[derive(Clone, Copy)]
pub struct Turned {
    pub replay: Replay,
    pub kept: usize,
    pub written: usize,
}

// What the first bytes of the input say: the cache to replay on, and how many bytes said it.
#[derive(Clone, Copy)]
pub struct Header {
    pub kind: Kind,
    pub c: usize,
    pub used: usize,
}

// Why they say none: a refusal, with its offset.
#[derive(Clone, Copy)]
pub struct Stop {
    pub refusal: Refusal,
    pub offset: u64,
}

// A replay of which nothing was read.
pub fn start() -> Replay
    ensures { result ≡ Replay.Start }
{
    Replay::Start
}

// With so many bytes at hand an operation can be run.
fn bytes_needed(last: bool) -> usize
    ensures { result ≡ needed last }
{
    if last { 0 } else { 16 }
}

// A bad capacity, which stands behind the kind byte.
fn refuse_size(refusal: Refusal) -> Stop
    ensures { result ≡ stop refusal 1 }
{
    Stop { refusal, offset: 1 }
}

// The capacity, behind the kind byte.
fn read_size(kind: Kind, rest: &[u8]) -> Result<Header, Stop>
    ensures { result ≡ sized kind (frame_of rest.now) }
{
    let number = numbers::read_frame(rest);
    let Ok(Numeral { value, used }) = number else {
        return Err(refuse_size(Refusal::Number));
    };
    if 256 < value {
        return Err(refuse_size(Refusal::Capacity));
    }
    Ok(Header {
        kind,
        c: value as usize,
        used: 1 + used,
    })
}

// The kind byte and the capacity.
fn read_header(bytes: &[u8]) -> Result<Header, Stop>
    ensures { result ≡ header_of bytes.now }
{
    if bytes.len() == 0 {
        return Err(Stop {
            refusal: Refusal::Number,
            offset: 0,
        });
    }
    let kind = bytes[0];
    match kind {
        1 => read_size(Kind::Arc, &bytes[1..]),
        2 => read_size(Kind::Car, &bytes[1..]),
        _ => Err(Stop {
            refusal: Refusal::Operation,
            offset: 0,
        }),
    }
}

// An empty cache.
fn make(area: &mut [u64], kind: Kind, c: usize)
    requires { Sizes c area.old }
    ensures { Fresh kind c area.old area.new }
{
    let number = contracts::number(kind);
    empty_cache::new(area, number, c as u64).unwrap();
}

// The first bytes of the input.
fn begin(area: &mut [u64], bytes: &[u8], last: bool, out: &mut [u8]) -> Fed
    requires { Begins area.old out.old }
    ensures feeds { Feeds Replay.Start area.old bytes.now last result.replay area.new result.used (take result.written out.new) }
    ensures wrote { Wrote result.written out.old out.new }
{
    let need = bytes_needed(last);
    if bytes.len() < need {
        return Fed {
            replay: Replay::Start,
            used: 0,
            written: 0,
        };
    }
    let header = read_header(bytes);
    match header {
        Ok(cache) => {
            make(area, cache.kind, cache.c);
            Fed {
                replay: Replay::Running(Running {
                    kind: cache.kind,
                    c: cache.c,
                    offset: cache.used as u64,
                    done: 0,
                }),
                used: cache.used,
                written: 0,
            }
        }
        Err(stop) => {
            let number = stop.refusal.number();
            let written = lines::put_stop(out, 0, number, stop.offset);
            Fed {
                replay: Replay::Ended,
                used: 0,
                written,
            }
        }
    }
}

// Operations, one after the other, while one can be run and there is room for its line.
fn run(r: Running, area: &mut [u64], bytes: &[u8], last: bool, out: &mut [u8]) -> Fed
    requires { Runs r area.old bytes.now out.old }
    ensures feeds { Feeds (Replay.Running r) area.old bytes.now last result.replay area.new result.used (take result.written out.new) }
    ensures wrote { Wrote result.written out.old out.new }
{
    let kind = r.kind;
    let c = r.c;
    let offset = r.offset;
    let need = bytes_needed(last);
    let mut at: usize = 0;
    let mut n = r.done;
    let mut put: usize = 0;
    loop {
        let here = offset + at as u64;
        if bytes.len() - at < need {
            return Fed {
                replay: Replay::Running(Running {
                    kind,
                    c,
                    offset: here,
                    done: n,
                }),
                used: at,
                written: put,
            };
        }
        if out.len() - put < 43 {
            return Fed {
                replay: Replay::Running(Running {
                    kind,
                    c,
                    offset: here,
                    done: n,
                }),
                used: at,
                written: put,
            };
        }
        let cursor = Cursor { at };
        let step = cursor.next(&bytes[at..]);
        let found = step.found;
        match found {
            Found::Read(op) => {
                let reply = operations::operate(area, c, kind, op);
                put = lines::put_reply(out, put, Ok(reply));
                at = step.cursor.at;
                n += 1;
            }
            Found::End => {
                let written = lines::put_end(out, put, n);
                return Fed {
                    replay: Replay::Ended,
                    used: at,
                    written,
                };
            }
            Found::Refused {
                refusal,
                offset: place,
            } => {
                let number = refusal.number();
                let written = lines::put_stop(out, put, number, offset + place as u64);
                return Fed {
                    replay: Replay::Ended,
                    used: at,
                    written,
                };
            }
        }
    }
}

// The same for any offset: an input past 2^64 bytes, which no machine reads, ends without a last line.
fn go_on(r: Running, area: &mut [u64], bytes: &[u8], last: bool, out: &mut [u8]) -> Fed
    requires { Goes r area.old out.old }
    ensures feeds { Feeds (Replay.Running r) area.old bytes.now last result.replay area.new result.used (take result.written out.new) }
    ensures wrote { Wrote result.written out.old out.new }
{
    let countable = u64::MAX - r.offset;
    let given = bytes.len() as u64;
    if countable < given {
        return Fed {
            replay: Replay::Ended,
            used: 0,
            written: 0,
        };
    }
    run(r, area, bytes, last, out)
}

// Goes on with the replay r, whose cache lies in the area, on the next bytes of the input: those that the feed before did not use up, and
// those read since. With `last` no more follow them. The lines go to the start of `out`.
pub fn feed(r: Replay, area: &mut [u64], bytes: &[u8], last: bool, out: &mut [u8]) -> Fed
    requires ready { Ready r area.old }
    requires line_room_in_bounds { line_room ≤ length out.old }
    ensures feeds { Feeds r area.old bytes.now last result.replay area.new result.used (take result.written out.new) }
    ensures wrote { Wrote result.written out.old out.new }
{
    match r {
        Replay::Start => begin(area, bytes, last, out),
        Replay::Running(running) => go_on(running, area, bytes, last, out),
        Replay::Ended => Fed {
            replay: Replay::Ended,
            used: 0,
            written: 0,
        },
    }
}

// One turn with a buffer whose first n bytes are the next of the input: they are fed, and those not used up go to the front. Where they do not fill the
// buffer, the input has ended: the caller reads as many as there is room for.
pub fn turn(r: Replay, area: &mut [u64], bytes: &mut [u8], n: usize, out: &mut [u8]) -> Turned
    requires ready { Ready r area.old }
    requires n_in_bounds { n ≤ length bytes.old }
    requires line_room_in_bounds { line_room ≤ length out.old }
    ensures turns { Turns (length bytes.old) r area.old (take n bytes.old) result.replay area.new (take result.kept bytes.new) (take result.written out.new) }
    ensures wrote { Wrote result.written out.old out.new }
    ensures kept_in_bounds { result.kept ≤ length bytes.new }
{
    let last = n < bytes.len();
    let fed = feed(r, area, &bytes[..n], last, out);
    let used = fed.used;
    let kept = input_buffer::keep(bytes, used, n);
    let replay = fed.replay;
    Turned {
        replay,
        kept,
        written: fed.written,
    }
}

// The words of an area for the program's largest cache: 24 * 256 + 64.
const AREA_WORDS: usize = 6208;

// Such an area.
pub fn area() -> [u64; AREA_WORDS]
    ensures { area_words ≡ length result }
{
    [0; AREA_WORDS]
}
