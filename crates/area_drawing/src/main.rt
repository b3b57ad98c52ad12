// The program `area_drawing`: the area of ARC at capacity 2 after the operations of P1 (RULES 11), word by word: its index,
// what it holds by docs/LAYOUT.md, its value. docs/LAYOUT.md has what it prints as its drawing (tools/drawing).
#![tactic(auto)]

ghost use Rattle.std.specs.Prelude.{◌≡◌, ◌≤◌, length};

use arc_core::ArcCore;
use refusals::Refusal;

fn word(area: &[u64], i: usize) -> u64 {
    area.get(i).copied().unwrap_or(0)
}

// The end of a line: the word's value.
fn put_value(area: &[u64], i: usize) {
    let w = word(area, i);
    test_text::field(b": ", w);
    test_text::word(b"\n");
}

// A line: the index, what the word holds, its value.
fn put(area: &[u64], i: usize, name: &[u8]) {
    test_text::number(i as u64);
    test_text::word(name);
    put_value(area, i);
}

// A line for one of several alike: the index, what the word holds, which one, its value.
fn put_one(area: &[u64], i: usize, name: &[u8], k: usize) {
    test_text::number(i as u64);
    test_text::field(name, k as u64);
    put_value(area, i);
}

// Word k of a row, which starts at an index.
fn put_kth(area: &[u64], start: usize, name: &[u8], k: usize) {
    if start < 1024 {
        if k < 1024 {
            put_one(area, start + k, name, k);
        }
    }
}

// So many words of one kind.
fn put_row(area: &[u64], start: usize, n: usize, name: &[u8]) {
    for k in 0..n {
        put_kth(area, start, name, k);
    }
}

// The line of one link of cell k of a list.
fn put_link(area: &[u64], i: usize, side: &[u8], list: &[u8], cell: &[u8], k: usize) {
    test_text::number(i as u64);
    test_text::word(side);
    test_text::word(list);
    test_text::field(cell, k as u64);
    put_value(area, i);
}

// The links of cell k, from an index on: the cell after it, the cell before it.
fn put_links(area: &[u64], i: usize, list: &[u8], cell: &[u8], k: usize)
    requires { i ≤ 4096 }
{
    put_link(area, i, b" after ", list, cell, k);
    put_link(area, i + 1, b" before ", list, cell, k);
}

// Cell k of those whose links start at an index.
fn put_cell(area: &[u64], start: usize, list: &[u8], cell: &[u8], k: usize) {
    if start < 1024 {
        if k < 1024 {
            put_links(area, start + 2 * k, list, cell, k);
        }
    }
}

// The links of so many cells.
fn put_cells(area: &[u64], start: usize, n: usize, list: &[u8], cell: &[u8]) {
    for k in 0..n {
        put_cell(area, start, list, cell, k);
    }
}

fn put_header(area: &[u64]) {
    put(area, 0, b" kind");
    put(area, 1, b" capacity");
    put(area, 2, b" target");
    put(area, 3, b" hint for the buckets");
    test_text::word(b"4 to 42 kept for what is to come\n");
}

fn put_counts(area: &[u64]) {
    put(area, 43, b" slots in T1");
    put(area, 44, b" slots in T2");
    put(area, 45, b" free slots");
}

fn put_slots(area: &[u64]) {
    put_row(area, 46, 2, b" frame of slot ");
    put_row(area, 48, 2, b" list of slot ");
    put_row(area, 50, 2, b" bit of slot ");
    put_cells(area, 52, 2, b"slot", b" ");
}

// The sentinels of T1, T2 and the free slots.
fn put_sentinels(area: &[u64]) {
    put_links(area, 56, b"T1's", b" sentinel ", 2);
    put_links(area, 58, b"T2's", b" sentinel ", 3);
    put_links(area, 60, b"the free", b" sentinel ", 4);
}

// A ghost list, whose part starts at an index.
fn put_ghost_cells(area: &[u64], start: usize, list: &[u8])
    requires { start ≤ 1024 }
{
    put_cells(area, start + 1, 2, list, b"'s cell ");
    put_links(area, start + 5, list, b"'s sentinel ", 2);
    put_links(area, start + 7, list, b"'s spare sentinel ", 3);
}

fn put_ghosts(area: &[u64]) {
    put(area, 62, b" pages in B1");
    put_ghost_cells(area, 62, b"B1");
    put(area, 71, b" pages in B2");
    put_ghost_cells(area, 71, b"B2");
}

fn put_lookup(area: &[u64]) {
    put_row(area, 80, 6, b" page of place ");
    put_cells(area, 86, 6, b"place", b" ");
    put_cells(area, 98, 7, b"the sentinel of bucket", b" ");
}

fn put_area(area: &[u64]) {
    put_header(area);
    put_counts(area);
    put_slots(area);
    put_sentinels(area);
    put_ghosts(area);
    put_lookup(area);
}

// The operations of P1, of which none is refused.
fn play(area: &mut [u64]) -> Result<(), Refusal> {
    ArcCore::new(area, 2)?;
    ArcCore::insert(area, 5, 10)?;
    ArcCore::insert(area, 6, 11)?;
    ArcCore::get(area, 5)?;
    ArcCore::insert(area, 7, 12)?;
    ArcCore::insert(area, 5, 13)?;
    Ok(())
}

// The words of an area of capacity 2: 24 * 2 + 64.
fn words() -> [u64; 112]
    ensures { 112 ≡ length result }
{
    [0; 112]
}

fn run(area: &mut [u64]) {
    if play(area).is_ok() {
        put_area(area);
    }
}

fn main() {
    let mut area = words();
    run(&mut area);
}
