// The refusals of RULES 3, by name. Who answers one answers this enum; its number is for people, for the programs' lines
// and for C.
#![tactic(auto)]

ghost use Rattle.std.specs.Prelude.{◌≡◌};
ghost use Rattle.refusals.specs.Refusals.{number_of};

// Paragraph 3.N of RULES is refusal N: 1 CAPACITY, 2 AREA, 3 STATE, 4 OPERATION, 5 NUMBER, 6 ROOM.
#[derive(Clone, Copy, PartialEq, Eq)]
pub enum Refusal {
    // `new` with more than 1,024 frames.
    Capacity,
    // `new` with too few words.
    Area,
    // Any other call on an area that is not well formed for the policy.
    State,
    // A trace has a code that is none.
    Operation,
    // A number of a trace has not all its bytes, is not in shortest form, or is too large.
    Number,
    // A listing into fewer records than residents.
    Room,
}

impl Refusal {
    // Its number.
    pub fn number(self) -> u8
        ensures { result ≡ number_of self }
    {
        match self {
            Refusal::Capacity => 1,
            Refusal::Area => 2,
            Refusal::State => 3,
            Refusal::Operation => 4,
            Refusal::Number => 5,
            Refusal::Room => 6,
        }
    }
}
