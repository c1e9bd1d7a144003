// What is known of a complete file beside its octets, and what a catalogue enters of it: no code, but one type for those who tell it and those who
// keep it.
#![tactic(auto)]

use frame::Channel;
use packet::Application;

// The channel and the application that it came by, the file counter in front of it, and its length L in bits.
#[derive(Clone, Copy)]
pub struct Facts {
    pub channel: Channel,
    pub application: Application,
    pub counter: u16,
    pub bits: u64,
}
