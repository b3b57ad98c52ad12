// What the calls on a cache answer, the same for both policies. A page that may be absent is an `Option` of its frame,
// and a public call, which may refuse its area, answers a `Result` with the refusal. What is left for a type of its own
// is here. `specs/Answers` gives the rules' number and values for each case.
#![tactic(auto)]

ghost use Rattle.std.specs.Prelude.{◌≡◌};
ghost use Rattle.rules.specs.Calls.{ghost as ghost_of};
ghost use Rattle.answers.specs.Answers.{place_is, place_of_list};

use rules::Side;

// The ghost list that a victim is recorded in: B1 for one of T1, B2 for one of T2.
#[derive(Clone, Copy, PartialEq, Eq)]
pub enum Place {
    B1,
    B2,
}

// `insert`: stored without a victim; stored, with the victim's page and frame, where it is recorded, and the replacement steps; updated,
// with the old frame; not stored.
#[derive(Clone, Copy)]
pub enum Inserted {
    New,
    Out {
        page: u64,
        frame: u32,
        place: Place,
        steps: u64,
    },
    Old(u32),
    None,
}

// What an operation of a trace answers: `get` and `peek` the frame of the page, where it is resident, and `remove` that of the page that left.
#[derive(Clone, Copy)]
pub enum Reply {
    Got(Option<u32>),
    Inserted(Inserted),
    Gone(Option<u32>),
    Cleared,
    Seen(Option<u32>),
}

// The ghost list of the victims of a side.
pub fn recorded_for(side: Side) -> Place
    ensures { place_is result ≡ ghost_of side }
{
    match side {
        Side::First => Place::B1,
        Side::Second => Place::B2,
    }
}

// The same by the number of a list, 0 for T1 and any other for T2. It takes every number, as before, where a side would
// ask more of its caller.
pub fn recorded_in(list: usize) -> Place
    ensures { place_is result ≡ place_of_list list }
{
    if list == 0 { Place::B1 } else { Place::B2 }
}
