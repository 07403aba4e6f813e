/// The bytes have none of the short forms.
#[derive(Clone, Copy, Debug, PartialEq, Eq)]
pub struct NotShort;
