// The station: what every call that its user makes gives back, and set-up. The calls on files stand in `files`, the frame call in `reception`.
//
// A state goes in by value and comes back by value; desks, store, event list and buffers are lent. No call asks anything of what comes in.
// Each contract is one equation between everything that comes out and a definition in specs/ of what came in.
#![tactic(auto)]

ghost use Rattle.std.specs.Prelude.{◌≡◌, true, ◌++◌, map, ◌-◌, length, replicate};
ghost use Rattle.state.specs.Slots.{all_zero_state};
ghost use Rattle.state.specs.Decision.{good_channels};
ghost use Rattle.station.specs.SetUp.{set_up_gives, whole_blocks, channel_of, fresh_station, set_up};
ghost use Rattle.station.specs.Files.{answered, store_fits};

use frame::Channel;
use refusals::Refusal;
use state::{Desk, Station};
use transport::Transport;

// A number of the paper, and the state.
#[derive(Clone, Copy)]
pub struct Answered {
    pub answer: u8,
    pub station: Station,
}

// What comes of letting a file go: a number of the paper, whether the file was complete, and the state.
#[derive(Clone, Copy)]
pub struct LetGo {
    pub answer: u8,
    pub complete: bool,
    pub station: Station,
}

// The slot of a held file that a call names, and what is known of the file.
#[derive(Clone, Copy)]
pub enum Held {
    Complete(usize),
    Incomplete(usize),
}

fn say(answer: u8, station: Station) -> Answered
    ensures { result ≡ answered answer station }
{
    Answered { answer, station }
}

// The channels watched, in the order named. None of them is bad: that was seen to before.
fn watch(channels: &[u8]) -> [Channel; Channel::MOST]
    requires { good_channels channels.now ≡ true }
    ensures { result ≡ map channel_of channels.now ++ replicate (8 - length channels.now) (channel_of 0) }
{
    let mut watched = [Channel(0); Channel::MOST];
    for (i, n) in channels.iter().enumerate() {
        let checked = Channel::checked(*n);
        let Some(channel) = checked else {
            return watched;
        };
        watched[i] = channel;
    }
    watched
}

fn fresh_station(spacecraft: u8, channels: &[u8], blocks: u16) -> Station
    requires { good_channels channels.now ≡ true }
    ensures { result ≡ fresh_station spacecraft channels.now blocks }
{
    let watched = watch(channels);
    let mut s = Station::zero();
    s.spacecraft = spacecraft;
    s.channels = channels.len() as u8;
    s.watched = watched;
    s.blocks = blocks;
    s
}

// The answer of a refused set-up.
fn not_set_up(refusal: Refusal) -> Answered
    ensures { result ≡ answered refusal.0 all_zero_state }
{
    say(refusal.0, Station::zero())
}

// Whether the store lent is 1 to 4,096 whole blocks.
fn whole_blocks(store: &[u8]) -> bool
    ensures { result ≡ whole_blocks store.now }
{
    if store.len() % Transport::BLOCK != 0 {
        return false;
    }
    let blocks = store.len() / Transport::BLOCK;
    if blocks == 0 {
        return false;
    }
    blocks <= Station::MOST_BLOCKS as usize
}

// Set-up: a spacecraft, the channels to watch, the desks and the store. Answers 0, 1 or 10.
pub fn set_up(spacecraft: u8, channels: &[u8], desks: &mut [u8], store: &[u8]) -> Answered
    ensures { set_up_gives result.answer result.station desks.new ≡ set_up spacecraft channels.now desks.old store.now }
{
    if !channels::good_channels(channels) {
        return not_set_up(Refusal::CHANNELS);
    }
    if desks.len() != Desk::SIZE * channels.len() {
        return not_set_up(Refusal::LENT);
    }
    if !whole_blocks(store) {
        return not_set_up(Refusal::LENT);
    }
    let n = desks.len();
    octets::blank(desks, 0, n);
    let blocks = store.len() / Transport::BLOCK;
    let station = fresh_station(spacecraft, channels, blocks as u16);
    say(0, station)
}

// Whether the store lent has as many octets as the state's blocks.
pub fn store_fits(blocks: u16, store: &[u8]) -> bool
    ensures { result ≡ store_fits blocks store.now }
{
    if blocks == 0 {
        return false;
    }
    if blocks > Station::MOST_BLOCKS {
        return false;
    }
    store.len() == Transport::BLOCK * (blocks as usize)
}
