//! The logical channel in a class byte (ISO/IEC 7816-4:2013, 5.4.1).

ghost use Rattle.std.specs.Prelude.{◌≡◌};
ghost use Rattle.apdu_core.specs.ClassBytes as byte_of;
ghost use Rattle.apdu_core.specs.ClassBytes.{IsBasicChannel};

/// The channel that a class byte names.
pub fn channel_of(byte: u8) -> u8
    ensures { result ≡ byte_of.channel_of byte }
{
    byte % 4
}

/// The class byte of the same class that names channel 0.
pub fn off_channel(byte: u8) -> u8
    ensures { result ≡ byte_of.off_channel byte }
{
    byte / 4 * 4
}

/// The class byte that names this channel, where `class` is the one that names channel 0.
pub fn on_channel(class: u8, channel: u8) -> u8
    requires class { byte_of.channel_of class ≡ 0 }
    requires channel { IsBasicChannel channel }
    ensures { result ≡ byte_of.on_channel class channel }
{
    class + channel
}
