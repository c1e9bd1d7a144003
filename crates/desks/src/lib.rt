// Whether the desks of a state are sound: what the state says of them, and their octets.
//
// Promises: each of the two is true exactly if it holds of the desks of the channels watched (state specs/Decision.antt), and the octets are looked
// at where they lie.
#![tactic(auto)]

ghost use Rattle.std.specs.Prelude.{◌≡◌, true, ◌*◌, ◌≤◌, length, take};
ghost use Rattle.octets.specs.Each.{each};
ghost use Rattle.state.specs.Decision.{desk_holds, octets_held, desks_held};

use frame::{Channel, Counter};
use packet::{Look, Packet};
use state::Desk;

// A desk as the state has it.
fn desk_holds(desk: Desk) -> bool
    ensures { result ≡ desk_holds desk }
{
    if desk.held > Desk::MOST {
        return false;
    }
    let Some(counter) = Counter::checked(desk.counter.0) else {
        return false;
    };
    desk.seen || counter.0 == 0 && desk.held == 0
}

pub fn desks_hold(desks: [Desk; Channel::MOST], n: u8) -> bool
    requires { n ≤ 8 }
    ensures { result ≡ each desk_holds (take n desks) }
{
    desks[..n as usize].iter().all(|desk| desk_holds(*desk))
}

// The octets of one desk, of which so many are held.
fn octets_held(desk: &[u8], held: u16) -> bool
    requires { held ≤ length desk.now }
    ensures { result ≡ octets_held held desk.now }
{
    let h = held as usize;
    if !zeros::all_zero(desk, h, desk.len()) {
        return false;
    }
    if h < Packet::HEADER {
        return true;
    }
    let Look::Good(p) = packet::look_at(desk) else {
        return false;
    };
    h < p.size()
}

// What the octets of the first n desks say, where the state alone is sound: one pass over each desk.
pub fn are_desks_sound(positions: [Desk; Channel::MOST], n: u8, desks: &[u8]) -> bool
    requires desks_fit { (n ≤ 8) × (length desks.now ≡ 8198 * n) }
    requires positions_hold { each desk_holds (take n positions) ≡ true }
    ensures { result ≡ desks_held 0 (take n positions) desks.now }
{
    for i in 0..n as usize {
        let at = i * Desk::SIZE;
        if !octets_held(&desks[at..at + Desk::SIZE], positions[i].held) {
            return false;
        }
    }
    true
}
