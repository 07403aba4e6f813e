/// Why no session is begun.
#[derive(Clone, Copy, Debug, PartialEq, Eq)]
pub enum BeginRefusal {
    /// The data field of the reply to INITIALIZE UPDATE hasn't 32 bytes.
    Short,

    /// The card cryptogram is wrong.
    CardCryptogram,
}

/// The data field of a command has more bytes than its security level leaves room for.
#[derive(Clone, Copy, Debug, PartialEq, Eq)]
pub struct TooLong;

/// Why a reply is refused.
#[derive(Clone, Copy, Debug, PartialEq, Eq)]
pub enum ReplyRefusal {
    /// It is too short for its status, or for its R-MAC and its status.
    Short,

    /// It has an R-MAC, and that is wrong.
    Mac,

    /// No card sends such a reply: its data field is not the encryption of padded bytes, or it has one
    /// beside a status that is sent alone.
    Padding,
}
