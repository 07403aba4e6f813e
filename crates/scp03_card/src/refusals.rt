/// Why EXTERNAL AUTHENTICATE is refused.
#[derive(Clone, Copy, Debug, PartialEq, Eq)]
pub enum AuthRefusal {
    /// The host cryptogram is wrong.
    Cryptogram,

    /// The host cryptogram is right, and the C-MAC is wrong.
    Mac,
}

/// Why a protected command is refused.
#[derive(Clone, Copy, Debug, PartialEq, Eq)]
pub enum OpenRefusal {
    /// The body doesn't end in the right C-MAC.
    Mac,

    /// The C-MAC is right, and the data field is not the encryption of padded bytes.
    Padding,
}
