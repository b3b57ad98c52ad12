// Cells in a lent part of words. A cell has two numbers, each the number of a cell: the one after it and the one before it.
//
//     | next 0 | prev 0 | next 1 | prev 1 | .. |
//
// This crate alone knows how the two numbers lie in words. Whoever needs them calls these functions, and proves
// by the laws of proofs/Laws.antt. What a cell may hold is the number of a cell of the same part.
#![tactic(auto)]

ghost use Rattle.std.specs.Prelude.{◌≡◌};
ghost use Rattle.cells.specs.Cells.{In, next_of, prev_of, with_next, with_prev, CanLink};

// The cell after e.
pub fn next(w: &[u64], e: usize) -> usize
    requires { In w.now e }
    ensures { result ≡ next_of w.now e }
{
    w[2 * e] as usize
}

// The cell before e.
pub fn prev(w: &[u64], e: usize) -> usize
    requires { In w.now e }
    ensures { result ≡ prev_of w.now e }
{
    w[2 * e + 1] as usize
}

// The cell after e is now x.
pub fn set_next(w: &mut [u64], e: usize, x: usize)
    requires { CanLink w.old e x }
    ensures { w.new ≡ with_next w.old e x }
{
    w[2 * e] = x as u64;
}

// The cell before e is now x.
pub fn set_prev(w: &mut [u64], e: usize, x: usize)
    requires { CanLink w.old e x }
    ensures { w.new ≡ with_prev w.old e x }
{
    w[2 * e + 1] = x as u64;
}
