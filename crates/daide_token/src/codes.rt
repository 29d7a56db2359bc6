//! The codes of the tokens that the gateway knows by name: the brackets, and the words that it writes or looks for.

/// BRA, the opening bracket.
pub const BRA: u16 = 0x4000;

/// KET, the closing bracket.
pub const KET: u16 = 0x4001;

/// HLO, with which the server announces a game's variant.
pub const HLO: u16 = 0x4804;

/// HUH, which returns a message with its first error marked.
pub const HUH: u16 = 0x4806;

/// PRN, which returns a message whose brackets do not match.
pub const PRN: u16 = 0x4813;

/// ERR, which marks the error in a HUH.
pub const ERR: u16 = 0x4902;

/// LVL, the option of a variant that sets the level of press.
pub const LVL: u16 = 0x4903;
