// Why a call is refused: the paper's number for it, under a name.
//
// No code, but one type for every call that can be refused. The paper knows refusals by their numbers, of which the lowest that applies is given, so
// the number is what a refusal has: it cannot stand for another number, and a call that is done has none (specs/Refusals.antt has 0 for it).
#![tactic(auto)]

#[derive(Clone, Copy, PartialEq, Eq)]
pub struct Refusal(pub u8);

impl Refusal {
    // What is lent, and the state.
    pub const LENT: Refusal = Refusal(1);

    pub const UNSOUND: Refusal = Refusal(2);
    // A frame.
    pub const SIZE: Refusal = Refusal(3);

    pub const MARKER: Refusal = Refusal(4);

    pub const VERSION: Refusal = Refusal(5);

    pub const SPACECRAFT: Refusal = Refusal(6);

    pub const FILL: Refusal = Refusal(7);

    pub const NOT_WATCHED: Refusal = Refusal(8);

    pub const POINTER: Refusal = Refusal(9);
    // The channels that a set-up names.
    pub const CHANNELS: Refusal = Refusal(10);
    // A slot that is named, and a read of its file.
    pub const NO_FILE: Refusal = Refusal(11);

    pub const INCOMPLETE: Refusal = Refusal(12);

    pub const PAST_END: Refusal = Refusal(14);
    // The wrong bits that a hunter's marker may have.
    pub const WRONG_BITS: Refusal = Refusal(15);
    // A file's header.
    pub const SHORT: Refusal = Refusal(20);

    pub const NO_PRIMARY: Refusal = Refusal(21);

    pub const HEADER_LENGTH: Refusal = Refusal(22);

    pub const CUT: Refusal = Refusal(23);

    pub const FIXED_LENGTH: Refusal = Refusal(24);

    pub const TWICE: Refusal = Refusal(25);

    pub const DATA_LENGTH: Refusal = Refusal(26);

    pub const NO_RECORD: Refusal = Refusal(27);
    // A catalogue.
    pub const FULL: Refusal = Refusal(30);

    pub const NO_CATALOGUE: Refusal = Refusal(31);

    pub const NO_ROOM: Refusal = Refusal(34);
}
