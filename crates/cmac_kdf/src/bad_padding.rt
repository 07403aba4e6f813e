/// The bytes are not the encryption of padded ones.
#[derive(Clone, Copy, Debug, PartialEq, Eq)]
pub struct BadPadding;
