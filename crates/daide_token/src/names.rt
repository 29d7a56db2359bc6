//! The names of tokens by category and code, and the tokens by the first letters of their names. A name is stored with
//! the space that precedes it after another word, so that the printer copies it unchanged.

ghost use Rattle.std.specs.Prelude.{◌≡◌, ◌<◌, ◌+◌, ◌*◌, ℕ, [], true, length, map, option_map, slice_index_or};
ghost use Rattle.std.specs.List.{find, list_all, range_with_len};
ghost use Rattle.daide_token.specs.NamePages.{are_short, are_spaced, is_spaced, name_of_cell, name_on, rows_on};
ghost use Rattle.daide_token.specs.Names.{name_of, names, token_named};
ghost use Rattle.daide_token.specs.NamesByLetter.{codes_with, first_letter, is_named};

/// Category 40, brackets.
#[rattlefmt::skip]
const BRACKETS: [&str; 2] = [" BRA", " KET"];

/// Category 41, powers.
#[rattlefmt::skip]
const POWERS: [&str; 7] = [" AUS", " ENG", " FRA", " GER", " ITA", " RUS", " TUR"];

/// Category 42, units.
#[rattlefmt::skip]
const UNITS: [&str; 2] = [" AMY", " FLT"];

/// Category 43, orders.
#[rattlefmt::skip]
const ORDERS: [&str; 131] = [
    // 00
    "", "", "", "", "", "", "", "", "", "", "", "", "", "", "", "",
    // 10
    "", "", "", "", "", "", "", "", "", "", "", "", "", "", "", "",
    // 20
    " CTO", " CVY", " HLD", " MTO", " SUP", " VIA", "", "", "", "", "", "", "", "", "", "",
    // 30
    "", "", "", "", "", "", "", "", "", "", "", "", "", "", "", "",
    // 40
    " DSB", " RTO", "", "", "", "", "", "", "", "", "", "", "", "", "", "",
    // 50
    "", "", "", "", "", "", "", "", "", "", "", "", "", "", "", "",
    // 60
    "", "", "", "", "", "", "", "", "", "", "", "", "", "", "", "",
    // 70
    "", "", "", "", "", "", "", "", "", "", "", "", "", "", "", "",
    // 80
    " BLD", " REM", " WVE",
];

/// Category 44, notes.
#[rattlefmt::skip]
const NOTES: [&str; 20] = [
    // 00
    " MBV", "", " CST", " ESC", " FAR", " HSC", " NAS", " NMB", " NMR", " NRN", " NRS", " NSA", " NSC", " NSF", " NSP", "",
    // 10
    " NSU", " NVR", " NYU", " YSC",
];

/// Category 45, outcomes.
#[rattlefmt::skip]
const OUTCOMES: [&str; 7] = [" SUC", " BNC", " CUT", " DSR", " FLD", " NSO", " RET"];

/// Category 46, coasts.
#[rattlefmt::skip]
const COASTS: [&str; 15] = [" NCS", "", " NEC", "", " ECS", "", " SEC", "", " SCS", "", " SWC", "", " WCS", "", " NWC"];

/// Category 47, seasons.
#[rattlefmt::skip]
const SEASONS: [&str; 5] = [" SPR", " SUM", " FAL", " AUT", " WIN"];

/// Category 48, commands.
#[rattlefmt::skip]
const COMMANDS: [&str; 31] = [
    // 00
    " CCD", " DRW", " FRM", " GOF", " HLO", " HST", " HUH", " IAM", " LOD", " MAP", " MDF", " MIS", " NME", " NOT", " NOW", " OBS",
    // 10
    " OFF", " ORD", " OUT", " PRN", " REJ", " SCO", " SLO", " SND", " SUB", " SVE", " THX", " TME", " YES", " ADM", " SMR",
];

/// Category 49, parameters.
#[rattlefmt::skip]
const PARAMETERS: [&str; 14] = [
    " AOA", " BTL", " ERR", " LVL", " MRT", " MTL", " NPB", " NPR", " PDA", " PTL", " RTL", " UNO", "", " DSD",
];

/// Category 4A, press.
#[rattlefmt::skip]
const PRESS: [&str; 32] = [
    // 00
    " ALY", " AND", " BWX", " DMZ", "", "", " FCT", "", "", "", " IDK", "", " INS", "", " OCC", " ORR",
    // 10
    " PCE", "", "", " PRP", " QRY", " SCD", " SRY", " SUG", " THK", "", " TRY", "", " VSS", "", "", " XDO",
];

/// Category 50, inland provinces.
#[rattlefmt::skip]
const INLAND: [&str; 7] = [" BOH", " BUR", " GAL", " RUH", " SIL", " TYR", " UKR"];

/// Category 51, inland centres.
#[rattlefmt::skip]
const INLAND_CENTRES: [&str; 14] = ["", "", "", "", "", "", "", " BUD", " MOS", " MUN", " PAR", " SER", " VIE", " WAR"];

/// Category 52, seas.
#[rattlefmt::skip]
const SEAS: [&str; 33] = [
    // 00
    "", "", "", "", "", "", "", "", "", "", "", "", "", "", " ADR", " AEG",
    // 10
    " BAL", " BAR", " BLA", " EAS", " ECH", " GOB", " GOL", " HEL", " ION", " IRI", " MAO", " NAO", " NTH", " NWG", " SKA", " TYS",
    // 20
    " WES",
];

/// Category 54, coastal provinces.
#[rattlefmt::skip]
const COASTAL: [&str; 48] = [
    // 00
    "", "", "", "", "", "", "", "", "", "", "", "", "", "", "", "",
    // 10
    "", "", "", "", "", "", "", "", "", "", "", "", "", "", "", "",
    // 20
    "", " ALB", " APU", " ARM", " CLY", " FIN", " GAS", " LVN", " NAF", " PIC", " PIE", " PRU", " SYR", " TUS", " WAL", " YOR",
];

/// Category 55, coastal centres.
#[rattlefmt::skip]
const COASTAL_CENTRES: [&str; 72] = [
    // 00
    "", "", "", "", "", "", "", "", "", "", "", "", "", "", "", "",
    // 10
    "", "", "", "", "", "", "", "", "", "", "", "", "", "", "", "",
    // 20
    "", "", "", "", "", "", "", "", "", "", "", "", "", "", "", "",
    // 30
    " ANK", " BEL", " BER", " BRE", " CON", " DEN", " EDI", " GRE", " HOL", " KIE", " LON", " LVP", " MAR", " NAP", " NWY", " POR",
    // 40
    " ROM", " RUM", " SEV", " SMY", " SWE", " TRI", " TUN", " VEN",
];

/// Category 57, bicoastal centres.
#[rattlefmt::skip]
const BICOASTAL_CENTRES: [&str; 75] = [
    // 00
    "", "", "", "", "", "", "", "", "", "", "", "", "", "", "", "",
    // 10
    "", "", "", "", "", "", "", "", "", "", "", "", "", "", "", "",
    // 20
    "", "", "", "", "", "", "", "", "", "", "", "", "", "", "", "",
    // 30
    "", "", "", "", "", "", "", "", "", "", "", "", "", "", "", "",
    // 40
    "", "", "", "", "", "", "", "", " BUL", " SPA", " STP",
];

/// A category without names.
const NONE: [&str; 0] = [];

/// The names of each category from 40 to 57, each name with a space before it. No other category has names.
#[rattlefmt::skip]
static PAGES: [&[&str]; 24] = [
    // 40
    &BRACKETS, &POWERS, &UNITS, &ORDERS, &NOTES, &OUTCOMES, &COASTS, &SEASONS,
    &COMMANDS, &PARAMETERS, &PRESS, &NONE, &NONE, &NONE, &NONE, &NONE,
    // 50
    &INLAND, &INLAND_CENTRES, &SEAS, &NONE, &COASTAL, &COASTAL_CENTRES, &NONE, &BICOASTAL_CENTRES,
];

/// For each letter from A to Z, the tokens whose names begin with it, in ascending order.
#[rattlefmt::skip]
static LETTERS: [&[u16]; 26] = [
    // A
    &[
        0x4100, 0x4200, 0x4703, 0x481D, 0x4900, 0x4A00, 0x4A01, 0x520E, 0x520F, 0x5421, 0x5422, 0x5423,
        0x5530,
    ],
    // B
    &[
        0x4000, 0x4380, 0x4501, 0x4901, 0x4A02, 0x5000, 0x5001, 0x5107, 0x5210, 0x5211, 0x5212, 0x5531,
        0x5532, 0x5533, 0x5748,
    ],
    // C
    &[0x4320, 0x4321, 0x4402, 0x4502, 0x4800, 0x5424, 0x5534],
    // D
    &[0x4340, 0x4503, 0x4801, 0x490D, 0x4A03, 0x5535],
    // E
    &[0x4101, 0x4403, 0x4604, 0x4902, 0x5213, 0x5214, 0x5536],
    // F
    &[0x4102, 0x4201, 0x4404, 0x4504, 0x4702, 0x4802, 0x4A06, 0x5425],
    // G
    &[0x4103, 0x4803, 0x5002, 0x5215, 0x5216, 0x5426, 0x5537],
    // H
    &[0x4322, 0x4405, 0x4804, 0x4805, 0x4806, 0x5217, 0x5538],
    // I
    &[0x4104, 0x4807, 0x4A0A, 0x4A0C, 0x5218, 0x5219],
    // J
    &[],
    // K
    &[0x4001, 0x5539],
    // L
    &[0x4808, 0x4903, 0x5427, 0x553A, 0x553B],
    // M
    &[0x4323, 0x4400, 0x4809, 0x480A, 0x480B, 0x4904, 0x4905, 0x5108, 0x5109, 0x521A, 0x553C],
    // N
    &[
        0x4406, 0x4407, 0x4408, 0x4409, 0x440A, 0x440B, 0x440C, 0x440D, 0x440E, 0x4410, 0x4411, 0x4412,
        0x4505, 0x4600, 0x4602, 0x460E, 0x480C, 0x480D, 0x480E, 0x4906, 0x4907, 0x521B, 0x521C, 0x521D,
        0x5428, 0x553D, 0x553E,
    ],
    // O
    &[0x480F, 0x4810, 0x4811, 0x4812, 0x4A0E, 0x4A0F],
    // P
    &[0x4813, 0x4908, 0x4909, 0x4A10, 0x4A13, 0x510A, 0x5429, 0x542A, 0x542B, 0x553F],
    // Q
    &[0x4A14],
    // R
    &[0x4105, 0x4341, 0x4381, 0x4506, 0x4814, 0x490A, 0x5003, 0x5540, 0x5541],
    // S
    &[
        0x4324, 0x4500, 0x4606, 0x4608, 0x460A, 0x4700, 0x4701, 0x4815, 0x4816, 0x4817, 0x4818, 0x4819,
        0x481E, 0x4A15, 0x4A16, 0x4A17, 0x5004, 0x510B, 0x521E, 0x542C, 0x5542, 0x5543, 0x5544, 0x5749,
        0x574A,
    ],
    // T
    &[0x4106, 0x481A, 0x481B, 0x4A18, 0x4A1A, 0x5005, 0x521F, 0x542D, 0x5545, 0x5546],
    // U
    &[0x490B, 0x5006],
    // V
    &[0x4325, 0x4A1C, 0x510C, 0x5547],
    // W
    &[0x4382, 0x460C, 0x4704, 0x510D, 0x5220, 0x542E],
    // X
    &[0x4A1F],
    // Y
    &[0x4413, 0x481C, 0x542F],
    // Z
    &[],
];

/// Returns the pages of the categories that have names. Their rows are those of the table.
fn pages() -> &'static [&'static [&'static str]]
    ensures rows { rows_on 0x40 (map (λ page. map (λ cell. cell.now) page.now) result.now) ≡ names }
    ensures short { are_short (map (λ page. map (λ cell. cell.now) page.now) result.now) ≡ true }
    ensures spaced { are_spaced (map (λ page. map (λ cell. cell.now) page.now) result.now) ≡ true }
    ensures count { length result.now ≡ 24 }
{
    &PAGES
}

/// Returns the page of a category. It is empty if the category has no names.
#[inline(always)]
fn page_of(category: u8) -> &'static [&'static str]
    ensures names { (code : ℕ) → code < 256 →
        name_on (map (λ cell. cell.now) result.now) code ≡ name_of (category * 256 + code) }
    ensures spaced { list_all is_spaced (map (λ cell. cell.now) result.now) ≡ true }
{
    let pages = pages();
    if category < 0x40 || category > 0x57 {
        return &NONE;
    }
    pages[(category - 0x40) as usize]
}

/// Returns the cell of a code on a page. A code past the last cell has an empty one.
#[inline(always)]
fn cell_on(cells: &[&'static str], code: u8) -> &'static str
    ensures { result.now ≡ slice_index_or (map (λ cell. cell.now) cells.now) code [] }
{
    match cells.get(code as usize) {
        Some(cell) => *cell,
        None => "",
    }
}

/// Returns the name of a token, by its two bytes: a space and the three letters, or an empty text if the token has no
/// name.
#[inline(always)]
pub(crate) fn spaced_name(category: u8, code: u8) -> &'static str
    ensures name { name_of_cell result.now ≡ name_of (category * 256 + code) }
    ensures spaced { is_spaced result.now ≡ true }
{
    cell_on(page_of(category), code)
}

/// Returns what `spaced_name` returns, for a token as a whole number.
fn spaced_name_of(code: u16) -> &'static str
    ensures name { name_of_cell result.now ≡ name_of code }
    ensures spaced { is_spaced result.now ≡ true }
{
    let [category, code] = code.to_be_bytes();
    spaced_name(category, code)
}

/// Returns the name of a token, if it has one.
pub(crate) fn name_of(code: u16) -> Option<&'static str>
    ensures { option_map (λ name. name.now) result ≡ name_of code }
{
    spaced_name_of(code).strip_prefix(' ')
}

/// Returns the tokens by the first letters of their names, from A to Z.
fn letters() -> &'static [&'static [u16]]
    ensures { map (λ codes. codes.now) result.now ≡ map codes_with (range_with_len 0x41 26) }
{
    &LETTERS
}

/// Returns the tokens whose names begin with a letter.
fn codes_with(letter: u8) -> &'static [u16]
    ensures { result.now ≡ codes_with letter }
{
    if letter < b'A' || letter > b'Z' {
        return &[];
    }
    letters()[(letter - b'A') as usize]
}

/// Returns the first letter of a name, or 0 if it is empty.
fn first_letter(name: &str) -> u8
    ensures { result ≡ first_letter name.now }
{
    match name.as_bytes() {
        [letter, ..] => *letter,
        [] => 0,
    }
}

/// Returns whether a token has this name.
fn is_named(code: u16, name: &str) -> bool
    ensures { result ≡ is_named name.now code }
{
    match name_of(code) {
        Some(own) => own == name,
        None => false,
    }
}

/// Returns the first of the tokens that has this name.
fn code_in(codes: &[u16], name: &str) -> Option<u16>
    ensures { result ≡ find (is_named name.now) codes.now }
{
    codes.iter().copied().find(|code| is_named(*code, name))
}

/// Returns the token with a name, if there is one.
pub(crate) fn token_named(name: &str) -> Option<u16>
    ensures { result ≡ token_named name.now }
{
    code_in(codes_with(first_letter(name)), name)
}
