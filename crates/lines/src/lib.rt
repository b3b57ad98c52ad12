// The text of the replay program's lines (RULES 9), written into a lent buffer. Each writer answers the position behind
// what it wrote; the bytes before and behind the text stay. A caller that has room for `line_room` bytes has room for
// any line.
#![tactic(auto)]

ghost use Rattle.std.specs.Prelude.{◌++◌};
ghost use Rattle.rules.specs.Calls.{New, out as victim, Finished, Stopped};
ghost use Rattle.rules.specs.Decimal.{decimal};
ghost use Rattle.rules.specs.Program.{bytes, line, place_text, text_of};
ghost use Rattle.answers.specs.Answers.{told, got_is, seen_is, gone_is, place_is, inserted_is, reply_is};
ghost use Rattle.lines.specs.Lines.{Room, LineRoom, Put};

use answers::{Inserted, Place, Reply};
use refusals::Refusal;

// The bytes of a word.
fn put_word(out: &mut [u8], at: usize, word: &[u8]) -> usize
    requires { Room out.old at word.now }
    ensures { Put out.old out.new at word.now result }
{
    let end = at + word.len();
    out[at..end].copy_from_slice(word);
    end
}

// A number in decimal: the digits of a tenth of it, and its last digit. The library's `itoa` is no plainer here: it
// writes into a buffer of its own, to copy from, and its text would have to be proved the rules' `decimal`.
fn put_number(out: &mut [u8], at: usize, n: u64) -> usize
    requires { Room out.old at (decimal n) }
    ensures { Put out.old out.new at (decimal n) result }
{
    if n < 10 {
        out[at] = b'0' + n as u8;
        return at + 1;
    }
    let higher = n / 10;
    let last = n % 10;
    let place = put_number(out, at, higher);
    out[place] = b'0' + last as u8;
    place + 1
}

// A word and a number.
fn put_field(out: &mut [u8], at: usize, word: &[u8], n: u64) -> usize
    requires { Room out.old at (word.now ++ decimal n) }
    ensures { Put out.old out.new at (word.now ++ decimal n) result }
{
    let place = put_word(out, at, word);
    put_number(out, place, n)
}

// A line of a word and a number.
fn put_line(out: &mut [u8], at: usize, word: &[u8], n: u64) -> usize
    requires { Room out.old at (line (word.now ++ decimal n)) }
    ensures { Put out.old out.new at (line (word.now ++ decimal n)) result }
{
    let place = put_field(out, at, word, n);
    put_word(out, place, b"\n")
}

// The line of `get`'s answer.
fn put_got(out: &mut [u8], at: usize, r: Option<u32>) -> usize
    requires { LineRoom out.old at }
    ensures { Put out.old out.new at (text_of (got_is r)) result }
{
    match r {
        Some(frame) => put_line(out, at, b"hit ", frame as u64),
        None => put_word(out, at, b"miss\n"),
    }
}

// The line of `peek`'s answer.
fn put_seen(out: &mut [u8], at: usize, r: Option<u32>) -> usize
    requires { LineRoom out.old at }
    ensures { Put out.old out.new at (text_of (seen_is r)) result }
{
    match r {
        Some(frame) => put_line(out, at, b"see ", frame as u64),
        None => put_word(out, at, b"no\n"),
    }
}

// The line of `remove`'s answer.
fn put_gone(out: &mut [u8], at: usize, r: Option<u32>) -> usize
    requires { LineRoom out.old at }
    ensures { Put out.old out.new at (text_of (gone_is r)) result }
{
    match r {
        Some(frame) => put_line(out, at, b"gone ", frame as u64),
        None => put_word(out, at, b"absent\n"),
    }
}

// The end of a victim's line: the ghost list that it is recorded in.
fn put_place(out: &mut [u8], at: usize, place: Place) -> usize
    requires { Room out.old at (line (bytes " " ++ place_text (place_is place))) }
    ensures { Put out.old out.new at (line (bytes " " ++ place_text (place_is place))) result }
{
    match place {
        Place::B1 => put_word(out, at, b" b1\n"),
        Place::B2 => put_word(out, at, b" b2\n"),
    }
}

// The start of a victim's line: its page and its frame.
fn put_page_and_frame(out: &mut [u8], at: usize, page: u64, frame: u32) -> usize
    requires { LineRoom out.old at }
    ensures { Put out.old out.new at (bytes "new out " ++ decimal page ++ (bytes " " ++ decimal frame)) result }
{
    let place = put_field(out, at, b"new out ", page);
    put_field(out, place, b" ", frame as u64)
}

// The line of an insert with a victim.
fn put_victim(
    out: &mut [u8],
    at: usize,
    page: u64,
    frame: u32,
    recorded: Place,
    steps: u64,
) -> usize
    requires { LineRoom out.old at }
    ensures { Put out.old out.new at (text_of (New (victim page frame (place_is recorded)) steps)) result }
{
    let place = put_page_and_frame(out, at, page, frame);
    put_place(out, place, recorded)
}

// The line of `insert`'s answer.
fn put_inserted(out: &mut [u8], at: usize, r: Inserted) -> usize
    requires { LineRoom out.old at }
    ensures { Put out.old out.new at (text_of (inserted_is r)) result }
{
    match r {
        Inserted::New => put_word(out, at, b"new\n"),
        Inserted::Out {
            page,
            frame,
            place,
            steps,
        } => put_victim(out, at, page, frame, place, steps),
        Inserted::Old(frame) => put_line(out, at, b"old ", frame as u64),
        Inserted::None => put_word(out, at, b"none\n"),
    }
}

// The line of what a call of an operation answered; nothing for a refusal, which no operation of a trace gives.
pub fn put_reply(out: &mut [u8], at: usize, r: Result<Reply, Refusal>) -> usize
    requires { LineRoom out.old at }
    ensures { Put out.old out.new at (text_of (told reply_is r)) result }
{
    match r {
        Ok(Reply::Got(g)) => put_got(out, at, g),
        Ok(Reply::Inserted(g)) => put_inserted(out, at, g),
        Ok(Reply::Gone(g)) => put_gone(out, at, g),
        Ok(Reply::Cleared) => put_word(out, at, b"clear\n"),
        Ok(Reply::Seen(g)) => put_seen(out, at, g),
        Err(_) => at,
    }
}

// The last line, after n operations.
pub fn put_end(out: &mut [u8], at: usize, n: u64) -> usize
    requires { LineRoom out.old at }
    ensures { Put out.old out.new at (text_of (Finished n)) result }
{
    put_line(out, at, b"end ", n)
}

// The last line, where a refusal stopped the trace at an offset.
pub fn put_stop(out: &mut [u8], at: usize, refusal: u8, offset: u64) -> usize
    requires { LineRoom out.old at }
    ensures { Put out.old out.new at (text_of (Stopped refusal offset)) result }
{
    let place = put_field(out, at, b"stop ", refusal as u64);
    put_line(out, place, b" at ", offset)
}
