//! The grammar's predictions, by `match`.
//!
//! `entry_of` has one arm for each symbol, in the order of `Sym`. A symbol with one entry is handled in its arm. Each
//! of the others has a function in the module of its part of the grammar. These matches compile to jumps and read no
//! table. Only `rules` turns an entry into the number of a `Move`.

ghost use Rattle.std.specs.Prelude.{◌≡◌, ◌≤◌, [], ◌∷◌, if◌then◌else◌};
ghost use Rattle.daide_token.specs.declared.class.Class.TheVariants.{Bra};
ghost use Rattle.daide_grammar.specs.declared.symbol.Sym.TheVariants.{Closing};
ghost use Rattle.daide_grammar.specs.Table.Answers.{Take, Skip, Stop, entry_of_meaning};
ghost use Rattle.daide_grammar.specs.Table.AnswersGiven.{plain_look_ups};
ghost use Rattle.daide_grammar.specs.Classes.{same_class};
ghost use Rattle.daide_grammar.specs.Table.Symbols.{may_end_of, table_answer};

mod orders;
mod press;
mod requests;
mod rules;
mod server;

use crate::column::Column;
use crate::level::Level;
use crate::meaning::{Meaning, Rest};
use crate::plain::orders::{one_order, one_place, order_tail, places, unit_type};
use crate::plain::press::{arrangement, fact, maybe_send_group, operand, press, send_first};
use crate::plain::requests::{any, cancel, client, reply, request, submit_first, word_list};
use crate::plain::rules::rule_of;
use crate::plain::server::{
    kind_places, missing_first, one_outcome, one_param, outcomes, owned, server, who,
};
use crate::predict::{Move, Predict};
use crate::side::Side2;
use crate::symbol::{Sym, Symbol};
use crate::top_symbol::TopSymbol;
use daide_token::class::Class;
use daide_token::token::Token;

/// Predicts by pattern matching, and counts its look-ups. It has the protocol's own grammar at every level, and meets
/// the laws of `Predict`.
#[derive(Debug, Drop)]
pub struct Plain {
    asked: u64,
}

impl Plain {
    /// Creates a table with no look-up counted.
    pub fn new() -> Plain
        ensures { plain_look_ups result ≡ 0 }
    {
        Plain { asked: 0 }
    }
}

/// Returns the entry for a symbol and a class.
fn move_of(sym: Symbol, class: Column) -> Move
    ensures { result ≡ table_answer sym class }
{
    rule_of(meaning_of(sym.sym(), class.class()))
}

impl Predict for Plain {
    ghost use Rattle.daide_token.specs.Class.{class_of};
    ghost use Rattle.daide_grammar.specs.Table.AnswersGiven.{plain_look_ups};
    ghost use Rattle.daide_grammar.specs.Table.LawfulStack.{IsLawful};
    ghost use Rattle.daide_grammar.specs.Table.Languages.{SymbolMatches};
    ghost use Rattle.daide_grammar.specs.Table.Symbols.{may_end_of, start_symbol_of, table_answer};
    ghost use Rattle.daide_grammar.specs.Proofs.PlainLaws.{plain_laws, plain_begins};

    ghost words = { λ _. [] };

    ghost class_of = { λ _. class_of };

    ghost language = { λ _. SymbolMatches };

    ghost moves = { λ _. table_answer };

    ghost ends = { λ _. may_end_of };

    ghost start_symbol = { start_symbol_of };

    ghost lawful = { λ _. IsLawful table_answer };

    ghost asked = { plain_look_ups };

    fn predict(&mut self, sym: Symbol, class: Column) -> Move {
        self.asked = self.asked.wrapping_add(1);
        move_of(sym, class)
    }

    fn predict_token(&mut self, sym: TopSymbol, _token: Token, column: Column) -> Move {
        self.predict(sym.symbol(), column)
    }

    fn predict_word(&mut self, sym: Symbol, _token: Token, column: Column) -> Move {
        self.predict(sym, column)
    }

    fn may_end(&mut self, sym: Symbol) -> bool {
        self.asked = self.asked.wrapping_add(1);
        is_optional(sym.sym())
    }

    fn class_of(&self, token: Token) -> Column {
        Column::named(token.class())
    }

    fn start(&self, side: Side2, level: Level) -> Symbol {
        match side {
            Side2::Client => Symbol::named(Sym::Client(level)),
            Side2::ServerEnd => Symbol::named(Sym::Server(level)),
        }
    }

    fn asked(&self) -> u64 {
        self.asked
    }

    ghost laws = { λ _. plain_laws };

    ghost begins = { λ _ side level. plain_begins side level };
}

/// Returns the entry of a symbol that must begin with one class: that class takes it, and any other stops.
fn must<const N: usize>(wanted: Class, class: Class, rest: [Sym; N]) -> Meaning
    requires { N ≤ 5 }
    ensures { entry_of_meaning result ≡ (if same_class wanted class then Take rest.entry else Stop) }
{
    if wanted.number() == class.number() {
        Meaning::Take(Rest::of(rest))
    } else {
        Meaning::Stop
    }
}

/// Returns the entry of a nullable symbol with one entry: one class takes it, and any other skips it.
fn may<const N: usize>(wanted: Class, class: Class, rest: [Sym; N]) -> Meaning
    requires { N ≤ 5 }
    ensures { entry_of_meaning result ≡ (if same_class wanted class then Take rest.entry else Skip) }
{
    if wanted.number() == class.number() {
        Meaning::Take(Rest::of(rest))
    } else {
        Meaning::Skip
    }
}

/// Returns the entry of a symbol that is one token.
fn token(wanted: Class, class: Class) -> Meaning
    ensures { entry_of_meaning result ≡ (if same_class wanted class then Take [] else Stop) }
{
    must(wanted, class, [])
}

/// Returns the entry of a symbol that is another symbol in brackets.
fn group(inside: Sym, class: Class) -> Meaning
    ensures { entry_of_meaning result ≡ (if same_class Bra class then Take (inside ∷ Closing ∷ []) else Stop) }
{
    must(Class::Bra, class, [inside, Sym::Closing])
}

/// Returns the entry of a symbol that is a list of such pairs: after the first pair the list continues.
fn groups(inside: Sym, all: Sym, class: Class) -> Meaning
    ensures { entry_of_meaning result ≡ (if same_class Bra class then Take (inside ∷ Closing ∷ all ∷ []) else Skip) }
{
    may(Class::Bra, class, [inside, Sym::Closing, all])
}

/// Returns the entry for a symbol and a class. The most frequent symbol, a closing bracket, is tested before the jump.
#[tactic(auto, unfolding(crate::specs::Table::Symbols::table_answer, crate::specs::Table::Symbols::entries, crate::specs::Table::Symbols::may_end_of))]
pub fn meaning_of(sym: Sym, class: Class) -> Meaning
    ensures { entry_of_meaning result ≡ table_answer sym class }
{
    match sym {
        Sym::Closing => must(Class::Ket, class, []),
        _ => entry_of(sym, class),
    }
}

/// Returns the entry for a symbol and a class, by a jump.
//
// It stays out of line: inlined into a reader's loop over the symbols, the comparisons of all arms would be made before
// the first symbol is known. Its callees are inlined and each arm returns directly, so that an entry is written to its
// final place without a copy.
#[inline(never)]
#[rattlefmt::skip]
#[tactic(
    auto,
    unfolding(
        crate::specs::Table::Symbols::table_answer,
        crate::specs::Table::Symbols::entries,
        crate::specs::Table::Symbols::may_end_of
    )
)]
fn entry_of(sym: Sym, class: Class) -> Meaning
    ensures { entry_of_meaning result ≡ table_answer sym class }
{
    match sym {
        // single tokens
        Sym::Closing => return token(Class::Ket, class),
        Sym::OnePower => return token(Class::Power, class),
        Sym::OneProvince => return token(Class::Province, class),
        Sym::OneCoast => return token(Class::Coast, class),
        Sym::OneNumber => return token(Class::Num, class),
        Sym::OneNote => return token(Class::Note, class),
        Sym::OneFleet => return token(Class::Flt, class),
        Sym::Waived => return token(Class::Wve, class),
        Sym::ConvoyTo => return token(Class::Cto, class),
        Sym::Through => return token(Class::Via, class),
        Sym::Against => return token(Class::Vss, class),

        // lists
        Sym::TextGroup => return group(Sym::Texts, class),
        Sym::Texts => return may(Class::Text, class, [Sym::Texts]),
        Sym::PowerGroup => return group(Sym::OnePower, class),
        Sym::PowersGroup => return must(Class::Bra, class, [Sym::OnePower, Sym::Powers, Sym::Closing]),
        Sym::MaybePowersGroup => return may(Class::Bra, class, [Sym::OnePower, Sym::Powers, Sym::Closing]),
        Sym::Powers => return may(Class::Power, class, [Sym::Powers]),
        Sym::NumberGroup => return group(Sym::OneNumber, class),
        Sym::MaybeNumberGroup => return may(Class::Bra, class, [Sym::OneNumber, Sym::Closing]),
        Sym::MaybeNumber => return may(Class::Num, class, []),
        Sym::ProvincesGroup => return must(Class::Bra, class, [Sym::OneProvince, Sym::Provinces, Sym::Closing]),
        Sym::MaybeProvincesGroup => return group(Sym::Provinces, class),
        Sym::Provinces => return may(Class::Province, class, [Sym::Provinces]),
        Sym::TurnGroup => return group(Sym::OneTurn, class),
        Sym::OneTurn => return must(Class::Season, class, [Sym::OneNumber]),
        Sym::WordsGroup => return group(Sym::WordList, class),
        Sym::WordList => return word_list(class),
        Sym::AnyGroup => return group(Sym::Any, class),
        Sym::Any => return any(class),

        // places and units
        Sym::OnePlace => return one_place(class),
        Sym::PlacesGroup => return group(Sym::Places, class),
        Sym::Places => return places(class),
        Sym::UnitGroup => return group(Sym::OneUnit, class),
        Sym::UnitGroups => return groups(Sym::OneUnit, Sym::UnitGroups, class),
        Sym::OneUnit => return must(Class::Power, class, [Sym::UnitType, Sym::OnePlace]),
        Sym::UnitType => return unit_type(class),

        // orders
        Sym::OrderGroup => return group(Sym::OneOrder, class),
        Sym::Orders => return groups(Sym::OneOrder, Sym::Orders, class),
        Sym::OneOrder => return one_order(class),
        Sym::OrderTail => return order_tail(class),
        Sym::SupportTail => return may(Class::Mto, class, [Sym::OneProvince]),

        // arrangements and facts
        Sym::ArrangementGroup(level) => return group(Sym::Arrangement(level), class),
        Sym::Arrangement(level) => return arrangement(level, class),
        Sym::FactGroup(level) => return group(Sym::Fact(level), class),
        Sym::Fact(level) => return fact(level, class),
        Sym::OperandGroup(level) => return group(Sym::Operand(level), class),
        Sym::Operands(level) => return groups(Sym::Operand(level), Sym::Operands(level), class),
        Sym::Operand(level) => return operand(level, class),
        Sym::ShareGroup => return must(Class::Bra, class, [Sym::OnePower, Sym::Provinces, Sym::Closing]),
        Sym::Shares => return may(Class::Bra, class, [Sym::OnePower, Sym::Provinces, Sym::Closing, Sym::Shares]),

        // press
        Sym::PressGroup(level) => return group(Sym::Press(level), class),
        Sym::Press(level) => return press(level, class),
        Sym::SendGroup(level) => return group(Sym::Send(level), class),
        Sym::MaybeSendGroup(level) => return maybe_send_group(level, class),
        Sym::Send(level) => return must(Class::Snd, class, [Sym::SendTail(level)]),
        Sym::SendTail(level) => return must(Class::Bra, class, [Sym::SendFirst(level)]),
        Sym::SendFirst(level) => return send_first(level, class),

        // client messages
        Sym::Client(level) => return client(level, class),
        Sym::RequestGroup(level) => return group(Sym::Request(level), class),
        Sym::Request(level) => return request(level, class),
        Sym::SubmitTail => return may(Class::Bra, class, [Sym::SubmitFirst]),
        Sym::SubmitFirst => return submit_first(class),
        Sym::CancelGroup => return group(Sym::Cancel, class),
        Sym::Cancel => return cancel(class),
        Sym::ReplyGroup => return group(Sym::Reply, class),
        Sym::Reply => return reply(class),

        // server messages
        Sym::Server(level) => return server(level, class),
        Sym::WhoGroup => return group(Sym::Who, class),
        Sym::Who => return who(class),
        Sym::ParamsGroup => return group(Sym::Params, class),
        Sym::Params => return groups(Sym::OneParam, Sym::Params, class),
        Sym::OneParam => return one_param(class),
        Sym::CentresGroup => return must(Class::Bra, class, [Sym::OwnersGroup, Sym::MaybeProvincesGroup, Sym::Closing]),
        Sym::OwnersGroup => return group(Sym::Owners, class),
        Sym::Owners => return groups(Sym::Owned, Sym::Owners, class),
        Sym::Owned => return owned(class),
        Sym::BordersGroup => return group(Sym::BordersList, class),
        Sym::BordersList => return groups(Sym::Borders, Sym::BordersList, class),
        Sym::Borders => return must(Class::Province, class, [Sym::KindList]),
        Sym::KindList => return groups(Sym::KindPlaces, Sym::KindList, class),
        Sym::KindPlaces => return kind_places(class),
        Sym::Stands => return groups(Sym::OneStand, Sym::Stands, class),
        Sym::OneStand => return must(Class::Power, class, [Sym::UnitType, Sym::OnePlace, Sym::StandTail]),
        Sym::StandTail => return may(Class::Mrt, class, [Sym::PlacesGroup]),
        Sym::MissingTail => return may(Class::Bra, class, [Sym::MissingFirst]),
        Sym::MissingFirst => return missing_first(class),
        Sym::NoteGroup => return group(Sym::OneNote, class),
        Sym::OutcomesGroup => return must(Class::Bra, class, [Sym::OneOutcome, Sym::Outcomes, Sym::Closing]),
        Sym::Outcomes => return outcomes(class),
        Sym::OneOutcome => return one_outcome(class),
        Sym::CivilDisorderGroup => return group(Sym::CivilDisorder, class),
        Sym::CivilDisorder => return must(Class::Ccd, class, [Sym::PowerGroup]),
        Sym::Players => return groups(Sym::OnePlayer, Sym::Players, class),
        Sym::OnePlayer => return must(Class::Power, class, [Sym::TextGroup, Sym::TextGroup, Sym::OneNumber, Sym::MaybeNumber]),
    }
}

/// Returns whether the symbol is nullable.
#[tactic(auto, unfolding(crate::specs::Table::Symbols::may_end_of))]
fn is_optional(sym: Sym) -> bool
    ensures { result ≡ may_end_of sym }
{
    matches!(
        sym,
        Sym::Texts
            | Sym::MaybePowersGroup
            | Sym::Powers
            | Sym::MaybeNumberGroup
            | Sym::MaybeNumber
            | Sym::Provinces
            | Sym::WordList
            | Sym::Any
            | Sym::Places
            | Sym::UnitGroups
            | Sym::Orders
            | Sym::SupportTail
            | Sym::Operands(_)
            | Sym::Shares
            | Sym::MaybeSendGroup(_)
            | Sym::SubmitTail
            | Sym::Params
            | Sym::Owners
            | Sym::BordersList
            | Sym::KindList
            | Sym::Stands
            | Sym::StandTail
            | Sym::MissingTail
            | Sym::Outcomes
            | Sym::Players
    )
}
