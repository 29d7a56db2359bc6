//! Predictions of server messages.
#![tactic(auto, unfolding(crate::specs::Table::Symbols::table_answer, crate::specs::Table::Symbols::entries, crate::specs::Table::Symbols::may_end_of))]

ghost use Rattle.std.specs.Prelude.{◌≡◌};
ghost use Rattle.daide_grammar.specs.Table.Answers.{entry_of_meaning};
ghost use Rattle.daide_grammar.specs.Table.Symbols.{table_answer};

use crate::level::Level;
use crate::meaning::{Meaning, Rest};
use crate::symbol::Sym;
use daide_token::class::Class;

/// Predicts a server's message. From level 10 on, CCD and OUT may return a send, and FRM passes on a press.
#[inline(always)]
pub fn server(level: Level, class: Class) -> Meaning
    ensures { entry_of_meaning result ≡ table_answer (Sym.Server level) class }
{
    match class {
        Class::Map | Class::Sve | Class::Lod => Meaning::Take(Rest::of([Sym::TextGroup])),
        Class::Mdf => Meaning::Take(Rest::of([
            Sym::PowersGroup,
            Sym::CentresGroup,
            Sym::BordersGroup,
        ])),
        Class::Hlo => Meaning::Take(Rest::of([Sym::WhoGroup, Sym::NumberGroup, Sym::ParamsGroup])),
        Class::Sco => Meaning::Take(Rest::of([Sym::Owners])),
        Class::Now => Meaning::Take(Rest::of([Sym::TurnGroup, Sym::Stands])),
        Class::Thx => Meaning::Take(Rest::of([Sym::OrderGroup, Sym::NoteGroup])),
        Class::Mis => Meaning::Take(Rest::of([Sym::MissingTail])),
        Class::Ord => Meaning::Take(Rest::of([
            Sym::TurnGroup,
            Sym::OrderGroup,
            Sym::OutcomesGroup,
        ])),
        Class::Tme => Meaning::Take(Rest::of([Sym::NumberGroup])),
        Class::Yes | Class::Rej => Meaning::Take(Rest::of([Sym::RequestGroup(level)])),
        Class::Ccd | Class::Out => Meaning::Take(Rest::of([
            Sym::PowerGroup,
            Sym::MaybeSendGroup(level),
        ])),
        Class::Not => Meaning::Take(Rest::of([Sym::CivilDisorderGroup])),
        Class::Slo => Meaning::Take(Rest::of([Sym::PowerGroup])),
        Class::Drw => Meaning::Take(Rest::of([Sym::MaybePowersGroup])),
        Class::Off => Meaning::Take(Rest::of([])),
        Class::Smr => Meaning::Take(Rest::of([Sym::TurnGroup, Sym::Players])),
        Class::Adm => Meaning::Take(Rest::of([Sym::TextGroup, Sym::TextGroup])),
        Class::Huh => Meaning::Take(Rest::of([Sym::AnyGroup])),
        Class::Frm if level.number() >= 10 => {
            Meaning::Take(Rest::of([Sym::PowerGroup, Sym::PowersGroup, Sym::PressGroup(level)]))
        }
        _ => Meaning::Stop,
    }
}

/// Predicts the addressee of a HLO: a power, or nobody.
#[inline(always)]
pub fn who(class: Class) -> Meaning
    ensures { entry_of_meaning result ≡ table_answer Sym.Who class }
{
    match class {
        Class::Power | Class::Uno => Meaning::Take(Rest::of([])),
        _ => Meaning::Stop,
    }
}

/// Predicts an option of the game.
#[inline(always)]
pub fn one_param(class: Class) -> Meaning
    ensures { entry_of_meaning result ≡ table_answer Sym.OneParam class }
{
    match class {
        Class::Lvl | Class::Mrt | Class::Uno | Class::Param => Meaning::Take(Rest::of([
            Sym::MaybeNumber,
        ])),
        _ => Meaning::Stop,
    }
}

/// Predicts an owner (one power, several powers, or nobody) and its supply centres.
#[inline(always)]
pub fn owned(class: Class) -> Meaning
    ensures { entry_of_meaning result ≡ table_answer Sym.Owned class }
{
    match class {
        Class::Power | Class::Uno => Meaning::Take(Rest::of([Sym::Provinces])),
        Class::Bra => Meaning::Take(Rest::of([
            Sym::OnePower,
            Sym::Powers,
            Sym::Closing,
            Sym::Provinces,
        ])),
        _ => Meaning::Stop,
    }
}

/// Predicts a kind of unit, or a fleet at a coast, and the places that it can reach.
#[inline(always)]
pub fn kind_places(class: Class) -> Meaning
    ensures { entry_of_meaning result ≡ table_answer Sym.KindPlaces class }
{
    match class {
        Class::Amy | Class::Flt => Meaning::Take(Rest::of([Sym::Places])),
        Class::Bra => Meaning::Take(Rest::of([
            Sym::OneFleet,
            Sym::OneCoast,
            Sym::Closing,
            Sym::Places,
        ])),
        _ => Meaning::Stop,
    }
}

/// Predicts what follows the first bracket of a MIS: a number, or a unit.
#[inline(always)]
pub fn missing_first(class: Class) -> Meaning
    ensures { entry_of_meaning result ≡ table_answer Sym.MissingFirst class }
{
    match class {
        Class::Num => Meaning::Take(Rest::of([Sym::Closing])),
        Class::Power => Meaning::Take(Rest::of([
            Sym::UnitType,
            Sym::OnePlace,
            Sym::StandTail,
            Sym::Closing,
            Sym::Stands,
        ])),
        _ => Meaning::Stop,
    }
}

/// Predicts the results of an order after the first.
#[inline(always)]
pub fn outcomes(class: Class) -> Meaning
    ensures { entry_of_meaning result ≡ table_answer Sym.Outcomes class }
{
    match class {
        Class::Note | Class::Outcome => Meaning::Take(Rest::of([Sym::Outcomes])),
        _ => Meaning::Skip,
    }
}

/// Predicts a result of an order.
#[inline(always)]
pub fn one_outcome(class: Class) -> Meaning
    ensures { entry_of_meaning result ≡ table_answer Sym.OneOutcome class }
{
    match class {
        Class::Note | Class::Outcome => Meaning::Take(Rest::of([])),
        _ => Meaning::Stop,
    }
}
