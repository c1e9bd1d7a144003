// The channels that a station can watch.
//
// Promises: a list of channels passes exactly if it is one of 1 to 8 distinct channels 0 to 62 (state specs/Decision.antt).
#![tactic(auto)]

ghost use Rattle.std.specs.Prelude.{◌≡◌, ◌≤◌, length, drop};
ghost use Rattle.state.specs.Decision.{among as among_of, good_channels};

use frame::Channel;

// Whether a channel is named from place from on.
pub fn among(channels: &[u8], from: usize, c: u8) -> bool
    requires { from ≤ length channels.now }
    ensures { result ≡ among_of c (drop from channels.now) }
{
    channels[from..].contains(&c)
}

// 1 to 8 distinct channels 0 to 62.
pub fn good_channels(channels: &[u8]) -> bool
    ensures { result ≡ good_channels channels.now }
{
    if channels.len() < 1 {
        return false;
    }
    if channels.len() > Channel::MOST {
        return false;
    }
    for (i, c) in channels.iter().enumerate() {
        if *c > Channel::LAST {
            return false;
        }
        if among(channels, i + 1, *c) {
            return false;
        }
    }
    true
}
