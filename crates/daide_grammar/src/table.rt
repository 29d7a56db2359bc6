//! The constant table: rules, rows and classes as data, each in a module of its own.

ghost use Rattle.std.specs.Prelude.{◌≡◌, map};
ghost use Rattle.std.specs.List.{flat_map};
ghost use Rattle.daide_grammar.specs.declared.table.rows.TheConstants.{TABLE};

use crate::numbers::{CLASS_COUNT, RULE_COUNT, SYMBOL_COUNT, TOKEN_COUNT};
use crate::table::rows::LINKED;

pub(crate) mod classes;
pub(crate) mod names;
pub(crate) mod rows;
pub(crate) mod rules;

/// The constant table in a readable layout, which only contracts and proofs name.
pub(crate) struct Table {
    /// The cell of each symbol at each class: the number of the first symbol that the rule leaves, or 0 if it leaves
    /// none, and then the number of the rule, a byte each. So the symbol that is next on top is known without a look-up
    /// that waits for the rule. An operator's word has the cells of a token without a meaning.
    pub(crate) rows: [[u16; SYMBOL_COUNT]; CLASS_COUNT],
    /// The symbols that each rule leaves, in the order in which they are pushed on a stack.
    pub(crate) rests: [[u8; 8]; RULE_COUNT],
    /// How many symbols each rule leaves.
    pub(crate) lengths: [u8; RULE_COUNT],
    /// The first symbol that each rule leaves, or 0 if it leaves none.
    pub(crate) firsts: [u8; RULE_COUNT],
    /// What each rule adds to the index of a stack's top, modulo 2^64.
    pub(crate) growths: [usize; RULE_COUNT],
    /// What a token of each class adds to the open brackets, modulo 2^16.
    pub(crate) brackets: [u16; CLASS_COUNT],
    /// The number of the class of each token, code by code.
    pub(crate) classes: [u8; TOKEN_COUNT],
}

/// The same table in one piece, so that one address reaches all of it. Each row is a reference, so that a class reaches
/// its row by one load. Each code has its own row of classes: short lists make the proofs faster.
pub(crate) struct Linked {
    pub(crate) rows: [&'static [u16; SYMBOL_COUNT]; CLASS_COUNT],
    pub(crate) rests: [[u8; 8]; RULE_COUNT],
    pub(crate) lengths: [u8; RULE_COUNT],
    pub(crate) firsts: [u8; RULE_COUNT],
    pub(crate) growths: [usize; RULE_COUNT],
    pub(crate) brackets: [u16; CLASS_COUNT],
    pub(crate) classes: [[u8; 256]; 256],
}

/// Returns the whole table. Only this function names it: a proof reads the whole table for each function that names it.
#[inline(always)]
pub(crate) fn whole() -> &'static Linked
    ensures rows { map (λ row. row.now) result.now.rows ≡ TABLE.rows }
    ensures rests { result.now.rests ≡ TABLE.rests }
    ensures lengths { result.now.lengths ≡ TABLE.lengths }
    ensures firsts { result.now.firsts ≡ TABLE.firsts }
    ensures growths { result.now.growths ≡ TABLE.growths }
    ensures brackets { result.now.brackets ≡ TABLE.brackets }
    ensures classes { flat_map (λ row. row) result.now.classes ≡ TABLE.classes }
{
    &LINKED
}
