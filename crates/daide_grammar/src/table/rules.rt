//! The rules of the table: what a token may mean to a symbol, each meaning by its number. Printed by
//! `scripts/print-table`; the check is what is trusted.
//!
//! Rule 0 stops and rule 1 skips; every other takes the token and leaves the symbols of its rest, the next one first.
//! A rest that names a level has seven rules, one for each level, and stands here once.

use crate::numbers::RULE_COUNT;

// the numbers of the symbols, those with a level at level 0
const CLOSING: u8 = 0;

const ONE_POWER: u8 = 1;

const ONE_PROVINCE: u8 = 2;

const ONE_COAST: u8 = 3;

const ONE_NUMBER: u8 = 4;

const ONE_NOTE: u8 = 5;

const ONE_FLEET: u8 = 6;

const WAIVED: u8 = 7;

const CONVOY_TO: u8 = 8;

const THROUGH: u8 = 9;

const AGAINST: u8 = 10;

const TEXT_GROUP: u8 = 11;

const TEXTS: u8 = 12;

const POWER_GROUP: u8 = 13;

const POWERS_GROUP: u8 = 14;

const MAYBE_POWERS_GROUP: u8 = 15;

const POWERS: u8 = 16;

const NUMBER_GROUP: u8 = 17;

const MAYBE_NUMBER_GROUP: u8 = 18;

const MAYBE_NUMBER: u8 = 19;

const PROVINCES_GROUP: u8 = 20;

const MAYBE_PROVINCES_GROUP: u8 = 21;

const PROVINCES: u8 = 22;

const TURN_GROUP: u8 = 23;

const ONE_TURN: u8 = 24;

const WORDS_GROUP: u8 = 25;

const WORD_LIST: u8 = 26;

const ANY_GROUP: u8 = 27;

const ANY: u8 = 28;

const ONE_PLACE: u8 = 29;

const PLACES_GROUP: u8 = 30;

const PLACES: u8 = 31;

const UNIT_GROUP: u8 = 32;

const UNIT_GROUPS: u8 = 33;

const ONE_UNIT: u8 = 34;

const UNIT_TYPE: u8 = 35;

const ORDER_GROUP: u8 = 36;

const ORDERS: u8 = 37;

const ONE_ORDER: u8 = 38;

const ORDER_TAIL: u8 = 39;

const SUPPORT_TAIL: u8 = 40;

const SHARE_GROUP: u8 = 41;

const SHARES: u8 = 42;

const SUBMIT_TAIL: u8 = 43;

const SUBMIT_FIRST: u8 = 44;

const CANCEL_GROUP: u8 = 45;

const CANCEL: u8 = 46;

const REPLY_GROUP: u8 = 47;

const REPLY: u8 = 48;

const WHO_GROUP: u8 = 49;

const WHO: u8 = 50;

const PARAMS_GROUP: u8 = 51;

const PARAMS: u8 = 52;

const ONE_PARAM: u8 = 53;

const CENTRES_GROUP: u8 = 54;

const OWNERS_GROUP: u8 = 55;

const OWNERS: u8 = 56;

const OWNED: u8 = 57;

const BORDERS_GROUP: u8 = 58;

const BORDERS_LIST: u8 = 59;

const BORDERS: u8 = 60;

const KIND_LIST: u8 = 61;

const KIND_PLACES: u8 = 62;

const STANDS: u8 = 63;

const ONE_STAND: u8 = 64;

const STAND_TAIL: u8 = 65;

const MISSING_TAIL: u8 = 66;

const MISSING_FIRST: u8 = 67;

const NOTE_GROUP: u8 = 68;

const OUTCOMES_GROUP: u8 = 69;

const OUTCOMES: u8 = 70;

const ONE_OUTCOME: u8 = 71;

const CIVIL_DISORDER_GROUP: u8 = 72;

const CIVIL_DISORDER: u8 = 73;

const PLAYERS: u8 = 74;

const ONE_PLAYER: u8 = 75;

const ARRANGEMENT_GROUP: u8 = 76;

const ARRANGEMENT: u8 = 83;

const FACT_GROUP: u8 = 90;

const FACT: u8 = 97;

const OPERAND_GROUP: u8 = 104;

const OPERANDS: u8 = 111;

const OPERAND: u8 = 118;

const PRESS_GROUP: u8 = 125;

const PRESS: u8 = 132;

const SEND_GROUP: u8 = 139;

const MAYBE_SEND_GROUP: u8 = 146;

const SEND: u8 = 153;

const SEND_TAIL: u8 = 160;

const SEND_FIRST: u8 = 167;

const CLIENT: u8 = 174;

const REQUEST_GROUP: u8 = 181;

const REQUEST: u8 = 188;

const SERVER: u8 = 195;

/// Of a rest by its symbols: their numbers as they are put on a stack, the next one last, how many they are, or how
/// many less one, which wraps where there are none.
macro_rules! rest {
    (cells) => { [0; 8] };
    (cells $a:expr) => { [$a, 0, 0, 0, 0, 0, 0, 0] };
    (cells $a:expr, $b:expr) => { [$b, $a, 0, 0, 0, 0, 0, 0] };
    (cells $a:expr, $b:expr, $c:expr) => { [$c, $b, $a, 0, 0, 0, 0, 0] };
    (cells $a:expr, $b:expr, $c:expr, $d:expr) => { [$d, $c, $b, $a, 0, 0, 0, 0] };
    (cells $a:expr, $b:expr, $c:expr, $d:expr, $e:expr) => { [$e, $d, $c, $b, $a, 0, 0, 0] };
    (length) => { 0 };
    (length $a:expr) => { 1 };
    (length $a:expr, $b:expr) => { 2 };
    (length $a:expr, $b:expr, $c:expr) => { 3 };
    (length $a:expr, $b:expr, $c:expr, $d:expr) => { 4 };
    (length $a:expr, $b:expr, $c:expr, $d:expr, $e:expr) => { 5 };
    (first) => { 0 };
    (first $a:expr) => { $a };
    (first $a:expr, $b:expr) => { $a };
    (first $a:expr, $b:expr, $c:expr) => { $a };
    (first $a:expr, $b:expr, $c:expr, $d:expr) => { $a };
    (first $a:expr, $b:expr, $c:expr, $d:expr, $e:expr) => { $a };
    (growth) => { usize::MAX };
    (growth $a:expr) => { 0 };
    (growth $a:expr, $b:expr) => { 1 };
    (growth $a:expr, $b:expr, $c:expr) => { 2 };
    (growth $a:expr, $b:expr, $c:expr, $d:expr) => { 3 };
    (growth $a:expr, $b:expr, $c:expr, $d:expr, $e:expr) => { 4 };
}

/// The rests with a level, by their rules at level 0.
macro_rules! by_level {
    (97 $of:ident $place:literal) => { rest!($of ARRANGEMENT + $place, CLOSING) };
    (104 $of:ident $place:literal) => { rest!($of ARRANGEMENT_GROUP + $place) };
    (111 $of:ident $place:literal) => { rest!($of OPERAND_GROUP + $place, OPERAND_GROUP + $place, OPERANDS + $place) };
    (118 $of:ident $place:literal) => { rest!($of FACT + $place, CLOSING) };
    (125 $of:ident $place:literal) => { rest!($of FACT_GROUP + $place) };
    (132 $of:ident $place:literal) => { rest!($of OPERAND + $place, CLOSING) };
    (139 $of:ident $place:literal) => { rest!($of OPERAND + $place, CLOSING, OPERANDS + $place) };
    (146 $of:ident $place:literal) => { rest!($of OPERAND_GROUP + $place) };
    (153 $of:ident $place:literal) => { rest!($of PRESS + $place, CLOSING) };
    (160 $of:ident $place:literal) => { rest!($of PRESS_GROUP + $place) };
    (167 $of:ident $place:literal) => { rest!($of SEND + $place, CLOSING) };
    (174 $of:ident $place:literal) => { rest!($of SEND_TAIL + $place) };
    (181 $of:ident $place:literal) => { rest!($of SEND_FIRST + $place) };
    (188 $of:ident $place:literal) => { rest!($of POWERS, CLOSING, PRESS_GROUP + $place) };
    (195 $of:ident $place:literal) => { rest!($of ONE_NUMBER, CLOSING, POWERS_GROUP, PRESS_GROUP + $place) };
    (202 $of:ident $place:literal) => { rest!($of REQUEST + $place, CLOSING) };
    (209 $of:ident $place:literal) => { rest!($of POWER_GROUP, MAYBE_SEND_GROUP + $place) };
    (216 $of:ident $place:literal) => { rest!($of REQUEST_GROUP + $place) };
    (223 $of:ident $place:literal) => { rest!($of POWER_GROUP, POWERS_GROUP, PRESS_GROUP + $place) };
}

/// The cells, lengths, first symbols or growths of all rules.
macro_rules! rules {
    ($of:ident) => {
        [
            rest!($of), // 0 stops
            rest!($of), // 1 skips
            rest!($of), // 2
            rest!($of TEXTS, CLOSING), // 3
            rest!($of TEXTS), // 4
            rest!($of ONE_POWER, CLOSING), // 5
            rest!($of ONE_POWER, POWERS, CLOSING), // 6
            rest!($of POWERS), // 7
            rest!($of ONE_NUMBER, CLOSING), // 8
            rest!($of ONE_PROVINCE, PROVINCES, CLOSING), // 9
            rest!($of PROVINCES, CLOSING), // 10
            rest!($of PROVINCES), // 11
            rest!($of ONE_TURN, CLOSING), // 12
            rest!($of ONE_NUMBER), // 13
            rest!($of WORD_LIST, CLOSING), // 14
            rest!($of WORD_LIST), // 15
            rest!($of ANY, CLOSING), // 16
            rest!($of ANY, CLOSING, ANY), // 17
            rest!($of ANY), // 18
            rest!($of ONE_PROVINCE, ONE_COAST, CLOSING), // 19
            rest!($of PLACES, CLOSING), // 20
            rest!($of ONE_PROVINCE, ONE_COAST, CLOSING, PLACES), // 21
            rest!($of PLACES), // 22
            rest!($of ONE_UNIT, CLOSING), // 23
            rest!($of ONE_UNIT, CLOSING, UNIT_GROUPS), // 24
            rest!($of UNIT_TYPE, ONE_PLACE), // 25
            rest!($of ONE_ORDER, CLOSING), // 26
            rest!($of ONE_ORDER, CLOSING, ORDERS), // 27
            rest!($of ONE_UNIT, CLOSING, ORDER_TAIL), // 28
            rest!($of WAIVED), // 29
            rest!($of ONE_PROVINCE, THROUGH, PROVINCES_GROUP), // 30
            rest!($of UNIT_GROUP, CONVOY_TO, ONE_PROVINCE), // 31
            rest!($of ONE_PLACE), // 32
            rest!($of UNIT_GROUP, SUPPORT_TAIL), // 33
            rest!($of ONE_PROVINCE), // 34
            rest!($of ONE_POWER, PROVINCES, CLOSING), // 35
            rest!($of ONE_POWER, PROVINCES, CLOSING, SHARES), // 36
            rest!($of SUBMIT_FIRST), // 37
            rest!($of ONE_UNIT, CLOSING, ORDER_TAIL, CLOSING, ORDERS), // 38
            rest!($of WAIVED, CLOSING, ORDERS), // 39
            rest!($of ONE_NUMBER, CLOSING, ORDERS), // 40
            rest!($of CANCEL, CLOSING), // 41
            rest!($of MAYBE_POWERS_GROUP), // 42
            rest!($of SUBMIT_TAIL), // 43
            rest!($of MAYBE_NUMBER_GROUP), // 44
            rest!($of REPLY, CLOSING), // 45
            rest!($of TEXT_GROUP), // 46
            rest!($of WHO, CLOSING), // 47
            rest!($of PARAMS, CLOSING), // 48
            rest!($of ONE_PARAM, CLOSING, PARAMS), // 49
            rest!($of MAYBE_NUMBER), // 50
            rest!($of OWNERS_GROUP, MAYBE_PROVINCES_GROUP, CLOSING), // 51
            rest!($of OWNERS, CLOSING), // 52
            rest!($of OWNED, CLOSING, OWNERS), // 53
            rest!($of ONE_POWER, POWERS, CLOSING, PROVINCES), // 54
            rest!($of BORDERS_LIST, CLOSING), // 55
            rest!($of BORDERS, CLOSING, BORDERS_LIST), // 56
            rest!($of KIND_LIST), // 57
            rest!($of KIND_PLACES, CLOSING, KIND_LIST), // 58
            rest!($of ONE_FLEET, ONE_COAST, CLOSING, PLACES), // 59
            rest!($of ONE_STAND, CLOSING, STANDS), // 60
            rest!($of UNIT_TYPE, ONE_PLACE, STAND_TAIL), // 61
            rest!($of PLACES_GROUP), // 62
            rest!($of MISSING_FIRST), // 63
            rest!($of CLOSING), // 64
            rest!($of UNIT_TYPE, ONE_PLACE, STAND_TAIL, CLOSING, STANDS), // 65
            rest!($of ONE_NOTE, CLOSING), // 66
            rest!($of ONE_OUTCOME, OUTCOMES, CLOSING), // 67
            rest!($of OUTCOMES), // 68
            rest!($of CIVIL_DISORDER, CLOSING), // 69
            rest!($of POWER_GROUP), // 70
            rest!($of ONE_PLAYER, CLOSING, PLAYERS), // 71
            rest!($of TEXT_GROUP, TEXT_GROUP, ONE_NUMBER, MAYBE_NUMBER), // 72
            rest!($of POWERS_GROUP, AGAINST, POWERS_GROUP), // 73
            rest!($of POWERS_GROUP), // 74
            rest!($of POWERS_GROUP, PROVINCES_GROUP), // 75
            rest!($of ORDER_GROUP), // 76
            rest!($of UNIT_GROUP, UNIT_GROUPS), // 77
            rest!($of SHARE_GROUP, SHARES), // 78
            rest!($of ANY_GROUP), // 79
            rest!($of WORDS_GROUP), // 80
            rest!($of TURN_GROUP), // 81
            rest!($of POWER_GROUP, NUMBER_GROUP), // 82
            rest!($of TEXT_GROUP, TEXT_GROUP), // 83
            rest!($of CANCEL_GROUP), // 84
            rest!($of REPLY_GROUP), // 85
            rest!($of WHO_GROUP, NUMBER_GROUP, PARAMS_GROUP), // 86
            rest!($of POWERS_GROUP, CENTRES_GROUP, BORDERS_GROUP), // 87
            rest!($of MISSING_TAIL), // 88
            rest!($of CIVIL_DISORDER_GROUP), // 89
            rest!($of TURN_GROUP, STANDS), // 90
            rest!($of TURN_GROUP, ORDER_GROUP, OUTCOMES_GROUP), // 91
            rest!($of OWNERS), // 92
            rest!($of ORDER_GROUP, NOTE_GROUP), // 93
            rest!($of NUMBER_GROUP), // 94
            rest!($of TURN_GROUP, PLAYERS), // 95
            rest!($of PROVINCES_GROUP), // 96
            // with a level
            by_level!(97 $of 0), by_level!(97 $of 1), by_level!(97 $of 2), by_level!(97 $of 3), by_level!(97 $of 4),
            by_level!(97 $of 5), by_level!(97 $of 6),
            by_level!(104 $of 0), by_level!(104 $of 1), by_level!(104 $of 2), by_level!(104 $of 3),
            by_level!(104 $of 4), by_level!(104 $of 5), by_level!(104 $of 6),
            by_level!(111 $of 0), by_level!(111 $of 1), by_level!(111 $of 2), by_level!(111 $of 3),
            by_level!(111 $of 4), by_level!(111 $of 5), by_level!(111 $of 6),
            by_level!(118 $of 0), by_level!(118 $of 1), by_level!(118 $of 2), by_level!(118 $of 3),
            by_level!(118 $of 4), by_level!(118 $of 5), by_level!(118 $of 6),
            by_level!(125 $of 0), by_level!(125 $of 1), by_level!(125 $of 2), by_level!(125 $of 3),
            by_level!(125 $of 4), by_level!(125 $of 5), by_level!(125 $of 6),
            by_level!(132 $of 0), by_level!(132 $of 1), by_level!(132 $of 2), by_level!(132 $of 3),
            by_level!(132 $of 4), by_level!(132 $of 5), by_level!(132 $of 6),
            by_level!(139 $of 0), by_level!(139 $of 1), by_level!(139 $of 2), by_level!(139 $of 3),
            by_level!(139 $of 4), by_level!(139 $of 5), by_level!(139 $of 6),
            by_level!(146 $of 0), by_level!(146 $of 1), by_level!(146 $of 2), by_level!(146 $of 3),
            by_level!(146 $of 4), by_level!(146 $of 5), by_level!(146 $of 6),
            by_level!(153 $of 0), by_level!(153 $of 1), by_level!(153 $of 2), by_level!(153 $of 3),
            by_level!(153 $of 4), by_level!(153 $of 5), by_level!(153 $of 6),
            by_level!(160 $of 0), by_level!(160 $of 1), by_level!(160 $of 2), by_level!(160 $of 3),
            by_level!(160 $of 4), by_level!(160 $of 5), by_level!(160 $of 6),
            by_level!(167 $of 0), by_level!(167 $of 1), by_level!(167 $of 2), by_level!(167 $of 3),
            by_level!(167 $of 4), by_level!(167 $of 5), by_level!(167 $of 6),
            by_level!(174 $of 0), by_level!(174 $of 1), by_level!(174 $of 2), by_level!(174 $of 3),
            by_level!(174 $of 4), by_level!(174 $of 5), by_level!(174 $of 6),
            by_level!(181 $of 0), by_level!(181 $of 1), by_level!(181 $of 2), by_level!(181 $of 3),
            by_level!(181 $of 4), by_level!(181 $of 5), by_level!(181 $of 6),
            by_level!(188 $of 0), by_level!(188 $of 1), by_level!(188 $of 2), by_level!(188 $of 3),
            by_level!(188 $of 4), by_level!(188 $of 5), by_level!(188 $of 6),
            by_level!(195 $of 0), by_level!(195 $of 1), by_level!(195 $of 2), by_level!(195 $of 3),
            by_level!(195 $of 4), by_level!(195 $of 5), by_level!(195 $of 6),
            by_level!(202 $of 0), by_level!(202 $of 1), by_level!(202 $of 2), by_level!(202 $of 3),
            by_level!(202 $of 4), by_level!(202 $of 5), by_level!(202 $of 6),
            by_level!(209 $of 0), by_level!(209 $of 1), by_level!(209 $of 2), by_level!(209 $of 3),
            by_level!(209 $of 4), by_level!(209 $of 5), by_level!(209 $of 6),
            by_level!(216 $of 0), by_level!(216 $of 1), by_level!(216 $of 2), by_level!(216 $of 3),
            by_level!(216 $of 4), by_level!(216 $of 5), by_level!(216 $of 6),
            by_level!(223 $of 0), by_level!(223 $of 1), by_level!(223 $of 2), by_level!(223 $of 3),
            by_level!(223 $of 4), by_level!(223 $of 5), by_level!(223 $of 6),
            // no rules: no symbol has one
            rest!($of CLOSING), rest!($of CLOSING), rest!($of CLOSING), rest!($of CLOSING), rest!($of CLOSING),
            rest!($of CLOSING), rest!($of CLOSING), rest!($of CLOSING), rest!($of CLOSING), rest!($of CLOSING),
            rest!($of CLOSING), rest!($of CLOSING), rest!($of CLOSING), rest!($of CLOSING), rest!($of CLOSING),
            rest!($of CLOSING), rest!($of CLOSING), rest!($of CLOSING), rest!($of CLOSING), rest!($of CLOSING),
            rest!($of CLOSING), rest!($of CLOSING), rest!($of CLOSING), rest!($of CLOSING), rest!($of CLOSING),
            rest!($of CLOSING),
        ]
    };
}

/// The symbols that each rule leaves, as they are put on a stack.
pub(crate) const RESTS: [[u8; 8]; RULE_COUNT] = rules!(cells);

/// How many symbols each rule leaves.
pub(crate) const LENGTHS: [u8; RULE_COUNT] = rules!(length);

/// The first symbol that each rule leaves, or 0 if it leaves none.
pub(crate) const FIRSTS: [u8; RULE_COUNT] = rules!(first);

/// What each rule adds to the place of a stack's top, wrapping: the symbols that it leaves, less the one that it takes.
pub(crate) const GROWTHS: [usize; RULE_COUNT] = rules!(growth);
