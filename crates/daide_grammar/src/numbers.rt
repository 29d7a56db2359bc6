//! The numbers that definitions and table give out, by name. Printed by `scripts/print-table`; the check is what is
//! trusted.

/// How many classes there are beside an operator's words, whose numbers follow theirs.
pub const OWN_CLASSES: usize = 79;

/// How many classes there are with those of an operator's words.
pub const CLASS_COUNT: usize = 95;

/// How many words an operator may add.
pub const WORD_COUNT: usize = 16;

/// How many symbols there are, one with a level at each level.
pub const SYMBOL_COUNT: usize = 202;

/// How many rules there is room for: a rule is a byte.
pub const RULE_COUNT: usize = 256;

/// How many tokens there are.
pub const TOKEN_COUNT: usize = 65536;

/// The class of the closing bracket; only that of the opening one comes before it.
pub const KET: usize = 1;

/// The class of tokens without a meaning, as which the table knows an operator's word.
pub const OTHER: usize = 77;

/// The rule by which no message continues so.
pub const STOP: u8 = 0;

/// The rule by which the symbol is empty here.
pub const SKIP: u8 = 1;

/// The rule by which the symbol is the token alone. Each later one leaves at least one symbol.
pub const TAKE: usize = 2;

/// The rule that leaves `power_group` alone.
pub const LEAVES_POWER_GROUP: u8 = 70;

/// The rule that leaves `powers_group` alone.
pub const LEAVES_POWERS_GROUP: u8 = 74;

/// The rule that leaves `provinces_group` alone.
pub const LEAVES_PROVINCES_GROUP: u8 = 96;

/// The rule that leaves `order_group` alone.
pub const LEAVES_ORDER_GROUP: u8 = 76;

/// The rule that leaves `arrangement_group` alone, at level 0; each higher level has the next.
pub const LEAVES_ARRANGEMENT_GROUP: u8 = 104;

/// The rule that leaves `operand_group` alone, at level 0; each higher level has the next.
pub const LEAVES_OPERAND_GROUP: u8 = 146;

/// The rule that leaves `press_group` alone, at level 0; each higher level has the next.
pub const LEAVES_PRESS_GROUP: u8 = 160;
