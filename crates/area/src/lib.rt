// One area of words, cut into a header and four parts (docs/LAYOUT.md). Each call here lends one part to the crate that it belongs
// to, and says what becomes of the parts together. Nothing past the 24c + 64 words that a capacity needs is touched.
//
//     | kind | capacity | target | .. 43 | residents | B1 | B2 | lookup |
//
// A list of the residents is a number: 0 for T1, 1 for T2, 2 for the free slots.
#![tactic(auto)]

pub mod ghost_parts;
pub mod lookup_part;
pub mod resident_part;

ghost use Rattle.std.specs.Prelude.{◌≡◌, ◌+◌, ◌*◌, ◌≤◌, length};
ghost use Rattle.area_state.specs.Parts.{set_target};
ghost use Rattle.area.specs.Area.{kind_of, capacity_of, target_of, Starts, parts_of, Fit, Became};

use rules::Side;

// How an area of capacity c is cut: a header, then the residents, B1, B2 and the lookup. B1 starts at
// B1_PER_FRAME * c + B1_BASE, and likewise the others; a ghost list has GHOSTS_PER_FRAME * c + GHOSTS_BASE words. In code
// these numbers stand here alone, for contracts in specs/Area.
pub const HEADER: usize = 43;

pub const B1_PER_FRAME: usize = 5;

pub const B1_BASE: usize = 52;

pub const B2_PER_FRAME: usize = 7;

pub const B2_BASE: usize = 57;

pub const GHOSTS_PER_FRAME: usize = 2;

pub const GHOSTS_BASE: usize = 5;

pub const LOOKUP_PER_FRAME: usize = 9;

pub const LOOKUP_BASE: usize = 62;

pub const AREA_PER_FRAME: usize = 24;

pub const AREA_BASE: usize = 64;

// The largest capacity.
pub const MAX_CAPACITY: usize = 1024;

// The kind, the capacity and the target, as the header has them.
pub fn kind(area: &[u64]) -> u64
    requires { 64 ≤ length area.now }
    ensures { result ≡ kind_of area.now }
{
    area[0]
}

pub fn capacity(area: &[u64]) -> u64
    requires { 64 ≤ length area.now }
    ensures { result ≡ capacity_of area.now }
{
    area[1]
}

pub fn target(area: &[u64]) -> u64
    requires { 64 ≤ length area.now }
    ensures { result ≡ target_of area.now }
{
    area[2]
}

// The target is now t.
pub fn set_target(area: &mut [u64], c: usize, t: u64)
    requires { Fit c area.old (t ≤ c) }
    ensures { Became c area.old area.new (set_target t (parts_of c area.old)) }
{
    area[2] = t;
}

// Where the ghost list of a side starts.
pub fn ghosts_at(c: usize, s: Side) -> usize
    requires { c ≤ 1024 }
    ensures { Starts c s result }
{
    match s {
        Side::First => B1_PER_FRAME * c + B1_BASE,
        Side::Second => B2_PER_FRAME * c + B2_BASE,
    }
}
