//! The symbols of the grammar's table.
//!
//! A symbol represents the lists of tokens that are still expected. Its comment gives them in the notation of
//! docs/PROTOCOL.md: `x*` is none or more, `x+` one or more, `[x]` none or one. A pair of brackets is a symbol of its
//! own, a `..Group`, so that no rest of a prediction has an opening bracket. A nullable symbol is the last one in its
//! brackets, or the last of all.

ghost use Rattle.std.specs.Prelude.{◌≡◌, ◌<◌};
ghost use Rattle.daide_grammar.specs.Table.Numbers.{all_symbols, level_place, symbol_number, symbol_at};

use crate::level::Level;
use crate::table::names::{SYMBOLS, number_of};
use std::marker::Model;

/// A symbol that a reader still expects. It has a level if its language depends on the level.
#[derive(Clone, Copy)]
pub enum Sym {
    // single tokens
    /// `)`
    Closing,
    /// `power`
    OnePower,
    /// `province`
    OneProvince,
    /// `coast`
    OneCoast,
    /// `number`
    OneNumber,
    /// `note`
    OneNote,
    /// `FLT`
    OneFleet,
    /// `WVE`, after a power
    Waived,
    /// `CTO`, after a convoyed unit
    ConvoyTo,
    /// `VIA`, after the province of a convoy
    Through,
    /// `VSS`, after the allies
    Against,

    // lists
    /// `( text )`
    TextGroup,
    /// `text`: characters, none or more
    Texts,
    /// `( power )`
    PowerGroup,
    /// `( power+ )`
    PowersGroup,
    /// `[( power+ )]`
    MaybePowersGroup,
    /// `power*`
    Powers,
    /// `( number )`
    NumberGroup,
    /// `[( number )]`
    MaybeNumberGroup,
    /// `[number]`
    MaybeNumber,
    /// `( province+ )`
    ProvincesGroup,
    /// `( province* )`
    MaybeProvincesGroup,
    /// `province*`
    Provinces,
    /// `( turn )`
    TurnGroup,
    /// `turn`
    OneTurn,
    /// `( word* )`
    WordsGroup,
    /// `word*`
    WordList,
    /// `( any )`
    AnyGroup,
    /// `any`: any list of tokens whose brackets balance
    Any,

    // places and units
    /// `place`
    OnePlace,
    /// `( place* )`
    PlacesGroup,
    /// `place*`
    Places,
    /// `( unit )`
    UnitGroup,
    /// `( unit )*`
    UnitGroups,
    /// `unit`
    OneUnit,
    /// `type`: `AMY` or `FLT`
    UnitType,

    // orders
    /// `( order )`
    OrderGroup,
    /// `( order )*`
    Orders,
    /// `order`
    OneOrder,
    /// the rest of an order after its unit
    OrderTail,
    /// `[MTO province]`, after a supported unit
    SupportTail,

    // arrangements and facts
    /// `( arrangement )`
    ArrangementGroup(Level),
    /// `arrangement`
    Arrangement(Level),
    /// `( fact )`
    FactGroup(Level),
    /// `fact`
    Fact(Level),
    /// `( operand )`
    OperandGroup(Level),
    /// `( operand )*`
    Operands(Level),
    /// `operand`: an operand of AND or ORR
    Operand(Level),
    /// `( power province* )`
    ShareGroup,
    /// `( power province* )*`
    Shares,

    // press
    /// `( press )`
    PressGroup(Level),
    /// `press`
    Press(Level),
    /// `( send )`
    SendGroup(Level),
    /// `[( send )]`, and always empty below level 10
    MaybeSendGroup(Level),
    /// `send`
    Send(Level),
    /// `[( turn )] ( power+ ) ( press )`
    SendTail(Level),
    /// `turn ) ( power+ ) ( press )` or `power+ ) ( press )`
    SendFirst(Level),

    // client messages
    /// a client's message, except for the report PRN
    Client(Level),
    /// `( request )`
    RequestGroup(Level),
    /// a client request
    Request(Level),
    /// `[( turn )] ( order )*`
    SubmitTail,
    /// `turn ) ( order )*` or `order ) ( order )*`
    SubmitFirst,
    /// a client's earlier request that it may take back, in brackets
    CancelGroup,
    /// a client's earlier request that it may take back
    Cancel,
    /// a server's message that a client accepts or refuses, in brackets
    ReplyGroup,
    /// a server's message that a client accepts or refuses
    Reply,

    // server messages
    /// a server's message, except for the report PRN
    Server(Level),
    /// `( who )`
    WhoGroup,
    /// `who`
    Who,
    /// `( ( param [number] )* )`
    ParamsGroup,
    /// `( param [number] )*`
    Params,
    /// `param [number]`
    OneParam,
    /// `( ( ( owner province* )* ) ( province* ) )`
    CentresGroup,
    /// `( ( owner province* )* )`
    OwnersGroup,
    /// `( owner province* )*`
    Owners,
    /// `owner province*`
    Owned,
    /// `( ( province ( kind place* )* )* )`
    BordersGroup,
    /// `( province ( kind place* )* )*`
    BordersList,
    /// `province ( kind place* )*`
    Borders,
    /// `( kind place* )*`
    KindList,
    /// `kind place*`
    KindPlaces,
    /// `( stand )*`
    Stands,
    /// `stand`
    OneStand,
    /// `[MRT ( place* )]`
    StandTail,
    /// `( stand )*` or `( number )`
    MissingTail,
    /// `stand ) ( stand )*` or `number )`
    MissingFirst,
    /// `( note )`
    NoteGroup,
    /// `( outcome+ )`
    OutcomesGroup,
    /// `outcome*`
    Outcomes,
    /// `outcome`
    OneOutcome,
    /// `( CCD ( power ) )`
    CivilDisorderGroup,
    /// `CCD ( power )`
    CivilDisorder,
    /// `( power ( text ) ( text ) number [number] )*`
    Players,
    /// `power ( text ) ( text ) number [number]`
    OnePlayer,
}

/// A symbol of the table, by its number. Its abstract value is the symbol.
#[derive(Clone, Copy)]
pub struct Symbol {
    number: u8,
}

impl Model for Symbol {
    ghost use Rattle.std.specs.Prelude.{◌≡◌, ◌<◌, ℕ};
    ghost use Rattle.std.proofs.Common.{ap};
    ghost use Rattle.daide_grammar.specs.declared.symbol.Sym.{Sym};
    ghost use Rattle.daide_grammar.specs.Table.Numbers.{all_symbols, symbol_number, symbol_at};
    ghost use Rattle.daide_grammar.specs.Proofs.Numbers.{number_back};

    ghost Value = { Sym };

    ghost view = { λ s. symbol_at s.number };

    ghost invariant = { λ s. s.number < all_symbols };

    ghost inverse = { λ s. record { number = symbol_number s } };

    ghost inverse_ok = { λ s h. ap (λ (n : ℕ). record { number = n }) (number_back s.number h) };
}

impl Symbol {
    /// Returns the closing bracket.
    pub fn closing() -> Symbol
        ensures { result ≡ Sym.Closing }
    {
        Symbol { number: 0 }
    }

    /// Returns the symbol with a name.
    #[tactic(auto, using(crate::proofs::NumberLemmas::symbol_back, crate::proofs::NumberLemmas::symbol_small))]
    pub fn named(sym: Sym) -> Symbol
        ensures { result ≡ sym }
    {
        Symbol {
            number: number_of(sym),
        }
    }

    /// Returns the symbol by name.
    pub fn sym(self) -> Sym
        ensures { result ≡ self }
    {
        listed(self.number)
    }

    /// Returns the symbol with a number.
    #[inline(always)]
    pub fn of(number: u8) -> Symbol
        requires { number < all_symbols }
        ensures { result ≡ symbol_at number }
    {
        Symbol { number }
    }

    /// Returns the symbol's number.
    #[inline(always)]
    pub fn number(self) -> u8
        ensures number { result ≡ symbol_number self }
        ensures symbol { symbol_at result ≡ self }
        ensures below { result < all_symbols }
    {
        self.number
    }
}

fn listed(number: u8) -> Sym
    requires { number < all_symbols }
    ensures { result ≡ symbol_at number }
{
    SYMBOLS[number as usize]
}

/// Returns the index of a level among the levels, from 0 to 6.
pub fn level_place(level: Level) -> u8
    ensures place { result ≡ level_place level }
    ensures few { result < 7 }
{
    match level {
        Level::L0 => 0,
        Level::L10 => 1,
        Level::L20 => 2,
        Level::L30 => 3,
        Level::L40 => 4,
        Level::L50 => 5,
        Level::L60 => 6,
    }
}
