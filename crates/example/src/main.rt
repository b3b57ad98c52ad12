// README.md's example: a cache of 2 frames by ARC, and the page faults of a small system with 3 frames. One frame
// holds nothing: the next page is read into it, and the frame of the page that has to go holds nothing then.
#![tactic(auto)]

use answers::Inserted;
use arc_core::ArcCore;
use refusals::Refusal;

// The file descriptor of standard output.
const STDOUT_FILENO: i32 = 1;

// A line: two words, and a number after each.
fn say(what: &[u8], page: u64, how: &[u8], frame: u32) {
    io::write_all(STDOUT_FILENO, what);
    io::print_decimal(STDOUT_FILENO, page);
    io::write_all(STDOUT_FILENO, how);
    io::print_decimal(STDOUT_FILENO, frame as u64);
    io::write_all(STDOUT_FILENO, b"\n");
}

// While frames are free they are taken in their order.
fn after(frame: u32) -> u32 {
    if frame < 2 { frame + 1 } else { frame }
}

// The page was read into `frame`, which held nothing. Tells the cache; the frame that holds nothing now.
fn enter(area: &mut [u64], page: u64, frame: u32) -> Result<u32, Refusal> {
    let free = match ArcCore::insert(area, page, frame)? {
        Inserted::New => after(frame),
        Inserted::Out {
            page: old,
            frame: free,
            ..
        } => {
            say(b"unmap page ", old, b" from frame ", free);
            free
        }
        Inserted::Old(free) => free, // it was resident: never after a miss
        Inserted::None => frame, // a cache of 0 frames
    };
    Ok(free)
}

// A page fault; the frame that holds nothing after it.
fn fault(area: &mut [u64], page: u64, spare: u32) -> Result<u32, Refusal> {
    match ArcCore::get(area, page)? {
        Some(frame) => {
            say(b"page ", page, b" is in frame ", frame);
            Ok(spare)
        }
        None => {
            say(b"page ", page, b" is read into frame ", spare);
            enter(area, page, spare)
        }
    }
}

fn run(area: &mut [u64]) -> Result<(), Refusal> {
    ArcCore::new(area, 2)?;
    let mut spare = 0;
    for page in [5, 6, 5, 7, 5] {
        spare = fault(area, page, spare)?;
    }
    Ok(())
}

fn main() {
    let mut area = [0u64; 112]; // ArcCore::words(2) = 24 * 2 + 64
    if let Err(refusal) = run(&mut area) {
        say(b"refusal ", refusal.number() as u64, b" at capacity ", 2);
    }
}
