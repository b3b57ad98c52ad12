// The program `replay` (RULES 9): a kind byte, a capacity and operations on standard input; a line for each operation
// and a last line on standard output. It reads, calls and writes; what is made of the bytes, and which lines there are
// to write, is the library's, `replaying`.
//
// No contract can say what is read and what is written. What is left to be believed: `read_full` puts the next bytes of
// the input, as many as there is room for; `write_all` writes what it is handed; and `write` hands it the lines of the
// turn, once. tools/wrong_shells tries that by runs. The rest is proved: `Replays` in specs/Standing.antt, with the
// theorem `any_buffer` of `replaying`.
#![tactic(auto)]

ghost use Rattle.std.specs.Prelude.{◌≡◌, ◌≤◌, length};
ghost use Rattle.replay.specs.Standing.{Stands, Holds, Refills, Goes, Turned as TurnedTo, Replays};

use replaying::{Replay, Turned};

// The file descriptors of standard input and standard output.
const STDIN_FILENO: i32 = 0;

const STDOUT_FILENO: i32 = 1;

// Where the program stands: the replay, how many bytes of the input wait at the start of the buffer, and whether to go on.
#[derive(Clone, Copy)]
struct Standing {
    replay: Replay,
    kept: usize,
    more: bool,
}

// A buffer for lines, which are written when a turn is done.
fn lines() -> [u8; 262144]
    ensures { 262144 ≡ length result }
{
    [0; 262144]
}

// Reads behind the bytes kept; how many bytes of the input the buffer has then.
fn refill(bytes: &mut [u8], kept: usize) -> usize
    requires { kept ≤ length bytes.old }
    ensures { Refills kept bytes.old bytes.new result }
{
    kept + io::read_full(STDIN_FILENO, &mut bytes[kept..])
}

// Writes the lines of a turn; whether to go on.
fn write(t: Turned, out: &[u8]) -> bool
    requires { t.written ≤ length out.now }
    ensures { Goes t.replay result }
{
    let n = t.written;
    let is_written = io::write_all(STDOUT_FILENO, &out[..n]);
    let replay = t.replay;
    match replay {
        Replay::Start => is_written,
        Replay::Running(_) => is_written,
        Replay::Ended => false,
    }
}

// One turn: reads, has the library go on, and writes.
fn turn(s: Standing, area: &mut [u64], bytes: &mut [u8], out: &mut [u8]) -> Standing
    requires { Stands s area.old bytes.old out.old }
    ensures stands { Stands result area.new bytes.new out.new }
    ensures turned_to { TurnedTo s area.old bytes.old result area.new bytes.new out.new }
{
    let kept = s.kept;
    let replay = s.replay;
    let n = refill(bytes, kept);
    let t = replaying::turn(replay, area, bytes, n, out);
    let more = write(t, out);
    let after = t.replay;
    let left = t.kept;
    Standing {
        replay: after,
        kept: left,
        more,
    }
}

// A proved loop has to end, and nothing says that the input does: the turns are counted, up to a number that no run reaches. Where the
// program stands then is told.
fn replay_all(area: &mut [u64], bytes: &mut [u8], out: &mut [u8]) -> Standing
    requires { Holds area.old out.old }
    ensures { Replays (length bytes.old) area.old result area.new bytes.new }
{
    let mut s = Standing {
        replay: replaying::start(),
        kept: 0,
        more: true,
    };
    for _ in 0..u64::MAX {
        s = turn(s, area, bytes, out);
        if !s.more {
            return s;
        }
    }
    s
}

fn main() {
    let mut area = replaying::area();
    let mut bytes = io::large_buffer();
    let mut out = lines();
    replay_all(&mut area, &mut bytes, &mut out);
}
