// The calls on files: one reads a file, one tells what is known of it, one lets it go.
//
// A slot is asked for first, and what is known of it decides. Each contract is one equation between everything that comes out and a
// definition of the station's (station specs/Files.antt, Answers.antt).
#![tactic(auto)]

ghost use Rattle.std.specs.Prelude.{◌≡◌, true, ◌≤◌, ◌<◌, Ok, IfErr};
ghost use Rattle.octets.specs.Reasons.{decided};
ghost use Rattle.refusals.specs.Refusals.{refuse, answer_of};
ghost use Rattle.state.specs.Slots.{slot_at, complete};
ghost use Rattle.state.specs.Decision.{is_sound};
ghost use Rattle.station.specs.Files.{asked, freed, file_let_go, store_fits, read_gives, read_as, read_out, facts_in, told_of};
ghost use Rattle.station.specs.Answers.{told_says};

use facts::Facts;
use refusals::Refusal;
use state::Station;
use station::{Held, LetGo};
use transport::Transport;

// What every call that names a slot asks first.
fn ask(s: Station, slot: u16) -> Result<Held, Refusal>
    ensures { result ≡ asked s slot }
{
    if !sound::is_sound(s) {
        return Err(Refusal::UNSOUND);
    }
    let k = slot as usize;
    if k >= Station::SLOTS {
        return Err(Refusal::NO_FILE);
    }
    let x = s.slots[k];
    if !x.is_held() {
        return Err(Refusal::NO_FILE);
    }
    if x.is_complete() {
        Ok(Held::Complete(k))
    } else {
        Ok(Held::Incomplete(k))
    }
}

// The file of slot k let go. Whether it is complete was asked before.
fn free(s: Station, k: usize, complete: bool) -> LetGo
    requires { (k < 32) × (s.blocks ≤ 4096) }
    ensures { result ≡ freed s k complete }
{
    let mut t = s;
    let after = blocks::let_go(s.head(), &mut t.owner, s.slots, k);
    t.slots = after;
    LetGo {
        answer: 0,
        complete,
        station: t,
    }
}

// Lets the file of a slot go, complete or not, and says with 0 whether it was complete. Answers 0, 2 or 11.
pub fn let_file_go(s: Station, slot: u16) -> LetGo
    ensures { result ≡ file_let_go s slot }
{
    match ask(s, slot) {
        Err(r) => LetGo {
            answer: r.0,
            complete: false,
            station: s,
        },
        Ok(Held::Complete(k)) => free(s, k, true),
        Ok(Held::Incomplete(k)) => free(s, k, false),
    }
}

// The slot of the complete file that is asked for. The store lent is judged before, and an incomplete file is refused.
fn ask_complete(s: Station, store: &[u8], slot: u16) -> Result<usize, Refusal>
    ensures { result ≡ decided (told_says s store.now slot) (Ok slot) refuse }
{
    if !station::store_fits(s.blocks, store) {
        return Err(Refusal::LENT);
    }
    match ask(s, slot)? {
        Held::Complete(k) => Ok(k),
        Held::Incomplete(_) => Err(Refusal::INCOMPLETE),
    }
}

// Octets of the complete file in slot k, from an offset on, to fill a buffer.
fn fill(s: Station, store: &[u8], k: usize, offset: u64, buffer: &mut [u8]) -> Result<(), Refusal>
    requires fits_and_sound { (store_fits s.blocks store.now ≡ true) × (is_sound s ≡ true) }
    requires k_complete { (k < 32) × (complete (slot_at s k) ≡ true) }
    ensures numbered { IfErr result (λ r. 0 < r.0) }
    ensures outcome { read_gives (answer_of result) buffer.new ≡ read_as s store.now offset buffer.old (Ok (Held.Complete k)) }
{
    let x = s.slots[k];
    let size = transport::octets_of_bits(x.bits);
    if offset > size {
        return Err(Refusal::PAST_END);
    }
    if buffer.len() as u64 > size - offset {
        return Err(Refusal::PAST_END);
    }
    let blocks = s.blocks as usize;
    let from = offset as usize + Transport::HEADER;
    pages::copy_out(&s.owner, blocks, k as u8 + 1, store, from, buffer);
    Ok(())
}

// File octets from an offset on, to fill a buffer. Answers 0, 1, 2, 11, 12 or 14; 0 is no refusal.
pub fn read_file(
    s: Station,
    store: &[u8],
    slot: u16,
    offset: u64,
    buffer: &mut [u8],
) -> Result<(), Refusal>
    ensures numbered { IfErr result (λ r. 0 < r.0) }
    ensures outcome { read_gives (answer_of result) buffer.new ≡ read_out s store.now slot offset buffer.old }
{
    let k = ask_complete(s, store, slot)?;
    fill(s, store, k, offset, buffer)
}

// What is known of the complete file in slot k. All but the counter stands in the slot; the counter is the first two octets of the file's blocks.
fn know(s: Station, store: &[u8], k: usize) -> Facts
    requires fits_and_sound { (store_fits s.blocks store.now ≡ true) × (is_sound s ≡ true) }
    requires k_complete { (k < 32) × (complete (slot_at s k) ≡ true) }
    ensures { result ≡ facts_in s store.now k }
{
    let mut two = [0u8; 2];
    let blocks = s.blocks as usize;
    pages::copy_out(&s.owner, blocks, k as u8 + 1, store, 0, &mut two);
    let x = s.slots[k];
    Facts {
        channel: x.channel,
        application: x.application,
        counter: octets::u16_at(&two, 0),
        bits: x.bits,
    }
}

// What is known of the complete file in a slot. Answers 0, 1, 2, 11 or 12.
pub fn tell_file(s: Station, store: &[u8], slot: u16) -> Result<Facts, Refusal>
    ensures { result ≡ told_of s store.now slot }
{
    let k = ask_complete(s, store, slot)?;
    Ok(know(s, store, k))
}
