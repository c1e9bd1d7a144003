// A command of a trial script, carried out: the calls of the station on what is lent, with the text of what came of each, and what sets the memory.
//
// Promises: a command changes state, desks and store as specs/Calls.antt has it, by the station's own definitions, and the text that it leaves
// is that of what came of it (specs/Printed.antt).
#![tactic(auto)]

mod calls;

ghost use Rattle.std.specs.Prelude.{◌≡◌, ◌≤◌, Some, length};
ghost use Rattle.text.specs.Pieces.{Written};
ghost use Rattle.script.specs.Script.{payload_of};
ghost use Rattle.script.specs.Memory.{memory};
ghost use Rattle.drive.specs.Calls.{carried_out};
ghost use Rattle.drive.specs.Printed.{printed};

use script::{Command, Run};

// One command. Its text stands at the start of out.
#[tactic(auto, unfolding(script::specs::Script::payload_of, script::specs::Memory::poked_by, crate::specs::Calls::carried_out, crate::specs::Calls::was_set_up, crate::specs::Calls::took_frame, crate::specs::Calls::was_let_go, crate::specs::Printed::printed))]
pub fn carry_out(
    w: Run,
    x: Command,
    payload: &[u8],
    desks: &mut [u8],
    store: &mut [u8],
    out: &mut [u8],
) -> Run
    requires desks_in_bounds { (w.desks ≤ length desks.old) × (w.store ≤ length store.old) × (length out.old ≡ 90844) }
    requires x_value { payload_of x ≡ Some (length payload.now) }
    ensures store_after { memory result desks.new store.new ≡ carried_out x payload.now (memory w desks.old store.old) }
    ensures end_bound { (result.end ≤ 90844) × Written out.old 0 (printed x payload.now (memory w desks.old store.old)) out.new result.end }
{
    match x.letter {
        b'S' => calls::set_up(w, x, payload, desks, store, out),
        b'F' => calls::take_frame(w, x, payload, desks, store, out),
        b'R' => calls::read_file(w, x, store, out),
        b'L' => calls::let_file_go(w, x, out),
        b'I' => calls::tell_file(w, x, store, out),
        b'H' => calls::show_lent(w, desks, store, out),
        _ => script::poke(w, x, desks, store),
    }
}
