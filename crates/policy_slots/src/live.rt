//! The volatile state of a card, as the rules see it.

ghost use Rattle.std.specs.Prelude.{◌≡◌, ◌<◌, IfSome, None, position, is_none, length, slice_index_or};

use arrayvec::ArrayVec;
use card_types::{Aid, ISSUER_SLOT};
use policy_machine::CHANNELS;
use std::array;

/// Where a listing of the registry goes on.
#[derive(Drop, Debug)]
pub struct Place {
    /// P1 of the GET STATUS that made it.
    pub kind: u8,

    /// Its data field in plain.
    pub body: ArrayVec<u8, 255>,

    /// The last AID shown.
    pub last: Aid,
}

/// What names the load session.
#[derive(Clone, Copy, Debug)]
pub struct LoadName {
    pub channel: u8,

    /// The AID of the Executable Load File.
    pub aid: Aid,

    /// The slot of its security domain.
    pub domain: u8,

    /// The number of the block that comes next.
    pub next: u16,
}

/// The volatile state: the logical channels and the load session.
#[derive(Drop, Debug)]
pub struct Live {
    /// For each open channel the slot of the entry that is selected.
    pub selected: [Option<u8>; CHANNELS],

    /// The load session, which is on one of the channels.
    pub load: Option<LoadName>,

    /// For each channel its place in a listing.
    pub places: [Option<Place>; CHANNELS],
}

impl Live {
    ghost use Rattle.policy_slots.specs.LiveEnds.{first_live, live_with_block, live_with_channel, live_with_load, live_with_place, live_without_load, live_without_place};

    /// After power on or reset: channel 0 alone is open, with the Issuer Security Domain selected.
    pub fn powered_on() -> Live
        ensures { result ≡ first_live }
    {
        let mut selected = [None; CHANNELS];
        selected[0] = Some(ISSUER_SLOT);
        Live {
            selected,
            load: None,
            places: array::from_fn(|_| None),
        }
    }

    /// The lowest closed channel.
    pub fn first_closed(&self) -> Option<usize>
        ensures lowest { result ≡ position is_none self.now.selected }
        ensures below { IfSome result (λ number. number < CHANNELS) }
        ensures four { length self.now.selected ≡ CHANNELS }
    {
        self.selected.iter().position(Option::is_none)
    }

    /// The channel's place in a listing is forgotten. Where there is none, nothing is written.
    pub fn forget_place(&mut self, channel: u8)
        requires { channel < CHANNELS }
        ensures { self.new ≡ live_without_place self.old channel }
    {
        let place = &mut self.places[usize::from(channel)];
        if place.is_some() {
            *place = None;
        }
    }

    /// Takes the channel's place in a listing, which is forgotten then.
    pub fn take_place(&mut self, channel: u8) -> Option<Place>
        requires { channel < CHANNELS }
        ensures place { result ≡ slice_index_or self.old.places channel None }
        ensures forgotten { self.new ≡ live_without_place self.old channel }
    {
        self.places[usize::from(channel)].take()
    }

    /// The channel has this place in a listing then.
    pub fn set_place(&mut self, channel: u8, place: Place)
        requires { channel < CHANNELS }
        ensures set { self.new ≡ live_with_place self.old channel place }
        ensures four { length self.old.places ≡ CHANNELS }
    {
        self.places[usize::from(channel)] = Some(place);
    }

    /// A load session begins.
    pub fn begin_load(&mut self, load: LoadName)
        ensures { self.new ≡ live_with_load self.old load }
    {
        self.load = Some(load);
    }

    /// The channel's load session ends, if it has one.
    pub fn end_load(&mut self, channel: u8)
        ensures { self.new ≡ live_without_load self.old channel }
    {
        if let Some(load) = &self.load {
            if load.channel == channel {
                self.load = None;
            }
        }
    }

    /// A block of the load session has come.
    pub fn count_block(&mut self)
        requires { IfSome self.old.load (λ load. load.next < 256) }
        ensures { self.new ≡ live_with_block self.old }
    {
        if let Some(load) = &mut self.load {
            load.next += 1;
        }
    }

    /// An entry is selected on a channel, or the channel is closed, and all that it had ends.
    pub fn set_channel(&mut self, channel: u8, selected: Option<u8>)
        requires { channel < CHANNELS }
        ensures set { self.new ≡ live_with_channel self.old channel selected }
        ensures four { length self.old.selected ≡ CHANNELS }
    {
        self.selected[usize::from(channel)] = selected;
        self.forget_place(channel);
        self.end_load(channel);
    }
}
