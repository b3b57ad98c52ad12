// The parts of the two ghost lists of an area, by their side.
ghost use Rattle.std.specs.Prelude.{◌≡◌, ⊤, ◌+◌, ◌*◌, ◌≤◌};
ghost use Rattle.cells.specs.Cells.{prev_of};
ghost use Rattle.ghosts.specs.Ghosts.{count_of, links_of, record_cell, recorded, forgotten, CanRecord, CanForget};
ghost use Rattle.area_state.specs.Parts.{set_ghosts};
ghost use Rattle.area.specs.Area.{ghosts_in, ghosts_words, parts_of, Fit, Became, Answered};

use rules::Side;
use std::ops::Range;

// Where the part of a side lies.
pub fn words(c: usize, s: Side) -> Range<usize>
    requires { c ≤ 1024 }
    ensures { result ≡ ghosts_words s c }
{
    let a = super::ghosts_at(c, s);
    a..a + super::GHOSTS_PER_FRAME * c + super::GHOSTS_BASE
}

// How many pages the ghost list has.
pub fn count(area: &[u64], c: usize, s: Side) -> usize
    requires { Fit c area.now ⊤ }
    ensures { result ≡ count_of (ghosts_in s c area.now) }
{
    ghosts::count(&area[words(c, s)], c)
}

// Its oldest cell, where it has one.
pub fn oldest(area: &[u64], c: usize, s: Side) -> usize
    requires { Fit c area.now ⊤ }
    ensures { result ≡ prev_of (links_of (ghosts_in s c area.now)) c }
{
    ghosts::oldest(&area[words(c, s)], c)
}

// The cell for a page that is recorded comes to the front: a spare one, or the oldest where the list is full.
pub fn record(area: &mut [u64], c: usize, s: Side) -> usize
    requires { Fit c area.old (CanRecord (ghosts_in s c area.old) c) }
    ensures { Answered c area.old area.new result (record_cell c (ghosts_in s c area.old)) (set_ghosts s (recorded c (ghosts_in s c area.old)) (parts_of c area.old)) }
{
    ghosts::record(&mut area[words(c, s)], c)
}

// The cell g of the list is spare.
pub fn forget(area: &mut [u64], c: usize, s: Side, g: usize)
    requires { Fit c area.old (CanForget (ghosts_in s c area.old) c g) }
    ensures { Became c area.old area.new (set_ghosts s (forgotten c g (ghosts_in s c area.old)) (parts_of c area.old)) }
{
    ghosts::forget(&mut area[words(c, s)], c, g);
}
