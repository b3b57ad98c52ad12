// A worked example: six guests on one board, each with a cache of its own, and one loop that serves their page faults. Their areas lie one after the
// other in one lent slice, 1,600 words each: room for 64 frames (24 * 64 + 64).
//
//     | guest 0 | guest 1 | guest 2 | guest 3 | guest 4 | guest 5 |
//
// Each area is made a cache once, by `start`. A round may be handed any words, so it checks the six areas first, once. From there on every call is
// an inner call of `arc`. An inner call asks that its area is well formed, and here a proof answers, not a check: the check said so, and every inner
// call leaves it so. That a fault of one guest changes no word of another is the contract of `serve`.
#![tactic(auto)]

ghost use Rattle.std.specs.Prelude.{◌≡◌, ◌<◌, ◌≤◌, length};
ghost use Rattle.answers.specs.Answers.{told, made_is};
ghost use Rattle.guests.specs.Guests.{hits as hits_of, served_is, Ready, Faulted, AllReady, Checks, Tells, Started, Alone, Stepped, Even, Ran, Rounds};

use answers::Inserted;
use arc_core::ArcCore;
use refusals::Refusal;
use rules::Kind;

// What a page fault comes to. Resident: the page is in this frame; the frame that was offered is still free. Filled: the page was not resident, and
// `insert` tells what became of it. `New`: it is in the frame that was offered. `Out`: so it is, and another page went out of its frame: unmap that
// page, and its frame is free. `None`: a cache of 0 frames stores nothing. `Old`, the page was resident, does not come after a miss.
#[derive(Clone, Copy)]
pub enum Served {
    Resident(u32),
    Filled(Inserted),
}

// Why no round is run: this guest's area is the first that holds no cache of ARC; or there are fewer words than six areas
// need, or not as many pages and frames as guests.
#[derive(Clone, Copy, PartialEq, Eq)]
pub enum RoundError {
    Refused(usize),
    Misfit,
}

// An empty cache of so many frames for a guest, by the public call. It refuses more than 1,024 frames, `Capacity`, and more
// than 64, `Area`, which 1,600 words do not hold. An inner call too: it asks for the words of six guests.
pub fn start(words: &mut [u64], guest: usize, frames: u64) -> Result<(), Refusal>
    requires { (9600 ≤ length words.old) × (guest < 6) }
    ensures { Started guest frames words.old words.new (told made_is result) }
{
    let a = guest * 1600;
    let b = a + 1600;
    ArcCore::new(&mut words[a..b], frames)
}

// A page fault on an area: look the page up, and where it is not resident, store it with the frame that was filled for it.
fn fault(area: &mut [u64], page: u64, frame: u32) -> Served
    requires { Ready area.old }
    ensures { Faulted page frame area.old area.new (served_is result) }
{
    let c = area::capacity(area) as usize;
    match inner_calls::get(area, c, Kind::Arc, page) {
        Some(f) => Served::Resident(f),
        None => Served::Filled(inner_calls::insert(area, c, Kind::Arc, page, frame)),
    }
}

// A page fault of one guest: its own words are lent, and no others.
fn serve(words: &mut [u64], guest: usize, page: u64, frame: u32) -> Served
    requires { AllReady words.old × (guest < 6) }
    ensures { Alone guest page frame words.old words.new (served_is result) }
{
    let a = guest * 1600;
    let b = a + 1600;
    fault(&mut words[a..b], page, frame)
}

// How many hits that is.
fn hits(served: Served) -> u64
    ensures { result ≡ hits_of (served_is served) }
{
    match served {
        Served::Resident(_) => 1,
        Served::Filled(_) => 0,
    }
}

// One request: its hits, 0 or 1. One that names none of the six is passed over. A board maps and unmaps pages here, by what `serve` answers.
fn step(words: &mut [u64], guest: usize, page: u64, frame: u32) -> u64
    requires { AllReady words.old }
    ensures { Stepped guest page frame words.old words.new result }
{
    if guest < 6 {
        let served = serve(words, guest, page, frame);
        return hits(served);
    }
    0
}

// The loop: all requests in order, with no check.
fn run(words: &mut [u64], guests: &[usize], pages: &[u64], frames: &[u32]) -> u64
    requires { AllReady words.old × Even guests.now pages.now frames.now }
    ensures { Ran guests.now pages.now frames.now words.old words.new result }
{
    let mut n: u64 = 0;
    for (i, guest) in guests.iter().enumerate() {
        n += step(words, *guest, pages[i], frames[i]);
    }
    n
}

// Whether a guest's words are a cache of ARC (kind 1).
fn ready(words: &[u64], guest: usize) -> bool
    requires { (9600 ≤ length words.now) × (guest < 6) }
    ensures { Tells guest words.now result }
{
    let a = guest * 1600;
    let b = a + 1600;
    opening::open(&words[a..b], Kind::Arc).is_ok()
}

// The check of all six, which names the first guest whose area holds no cache of ARC.
fn check(words: &[u64]) -> Result<(), usize>
    requires { 9600 ≤ length words.now }
    ensures { Checks words.now result }
{
    for guest in 0..6 {
        if !ready(words, guest) {
            return Err(guest);
        }
    }
    Ok(())
}

// A round, on any words: checked once, then run. It answers the hits. The requests come as three slices of any lengths, and
// not as one of a struct, so that a board hands on its lists as they are; unequal ones are refused.
pub fn round(
    words: &mut [u64],
    guests: &[usize],
    pages: &[u64],
    frames: &[u32],
) -> Result<u64, RoundError>
    ensures { Rounds guests.now pages.now frames.now words.old words.new result }
{
    if words.len() < 9600 {
        return Err(RoundError::Misfit);
    }
    if pages.len() != guests.len() {
        return Err(RoundError::Misfit);
    }
    if frames.len() != guests.len() {
        return Err(RoundError::Misfit);
    }
    check(words).map_err(RoundError::Refused)?;
    Ok(run(words, guests, pages, frames))
}
