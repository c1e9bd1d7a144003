// The event list: three numbers to an event.
//
// Owns what an event is and how the list grows. Promises: one event more is written behind those that the list has, and nothing else changes.
#![tactic(auto)]

ghost use Rattle.std.specs.Prelude.{◌≡◌, [], ◌∷◌, ◌+◌, ◌*◌, ◌≤◌, length};
ghost use Rattle.octets.specs.Buffer.{put};

// An event in the list: kind, application, slot.
#[derive(Clone, Copy)]
pub struct Event;

impl Event {
    pub const NUMBERS: usize = 3;
    // No frame gives more.
    pub const MOST: usize = 300;
}

// One event more.
pub fn emit(list: &mut [u16], n: usize, kind: u16, application: u16, slot: u16) -> usize
    requires { 3 * (n + 1) ≤ length list.old }
    ensures value { result ≡ n + 1 }
    ensures list_after { list.new ≡ put list.old (3 * n) (kind ∷ application ∷ slot ∷ []) }
{
    let at = Event::NUMBERS * n;
    list[at] = kind;
    list[at + 1] = application;
    list[at + 2] = slot;
    n + 1
}
