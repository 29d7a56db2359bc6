//! Predictions of places, units and orders.
#![tactic(auto, unfolding(crate::specs::Table::Symbols::table_answer, crate::specs::Table::Symbols::entries, crate::specs::Table::Symbols::may_end_of))]

ghost use Rattle.std.specs.Prelude.{◌≡◌};
ghost use Rattle.daide_grammar.specs.Table.Answers.{entry_of_meaning};
ghost use Rattle.daide_grammar.specs.Table.Symbols.{table_answer};

use crate::meaning::{Meaning, Rest};
use crate::symbol::Sym;
use daide_token::class::Class;

/// Predicts a province, or a province and a coast in brackets.
#[inline(always)]
pub fn one_place(class: Class) -> Meaning
    ensures { entry_of_meaning result ≡ table_answer Sym.OnePlace class }
{
    match class {
        Class::Province => Meaning::Take(Rest::of([])),
        Class::Bra => Meaning::Take(Rest::of([Sym::OneProvince, Sym::OneCoast, Sym::Closing])),
        _ => Meaning::Stop,
    }
}

/// Predicts a list of places, which may be empty.
#[inline(always)]
pub fn places(class: Class) -> Meaning
    ensures { entry_of_meaning result ≡ table_answer Sym.Places class }
{
    match class {
        Class::Province => Meaning::Take(Rest::of([Sym::Places])),
        Class::Bra => Meaning::Take(Rest::of([
            Sym::OneProvince,
            Sym::OneCoast,
            Sym::Closing,
            Sym::Places,
        ])),
        _ => Meaning::Skip,
    }
}

/// Predicts an army or a fleet.
#[inline(always)]
pub fn unit_type(class: Class) -> Meaning
    ensures { entry_of_meaning result ≡ table_answer Sym.UnitType class }
{
    match class {
        Class::Amy | Class::Flt => Meaning::Take(Rest::of([])),
        _ => Meaning::Stop,
    }
}

/// Predicts a unit in brackets and its order, or a power that waives a build.
#[inline(always)]
pub fn one_order(class: Class) -> Meaning
    ensures { entry_of_meaning result ≡ table_answer Sym.OneOrder class }
{
    match class {
        Class::Bra => Meaning::Take(Rest::of([Sym::OneUnit, Sym::Closing, Sym::OrderTail])),
        Class::Power => Meaning::Take(Rest::of([Sym::Waived])),
        _ => Meaning::Stop,
    }
}

/// Predicts what a unit is ordered to do. The target of a supported move is a province and not a coast.
#[inline(always)]
pub fn order_tail(class: Class) -> Meaning
    ensures { entry_of_meaning result ≡ table_answer Sym.OrderTail class }
{
    match class {
        Class::Hld | Class::Dsb | Class::Bld | Class::Rem => Meaning::Take(Rest::of([])),
        Class::Mto | Class::Rto => Meaning::Take(Rest::of([Sym::OnePlace])),
        Class::Sup => Meaning::Take(Rest::of([Sym::UnitGroup, Sym::SupportTail])),
        Class::Cvy => Meaning::Take(Rest::of([Sym::UnitGroup, Sym::ConvoyTo, Sym::OneProvince])),
        Class::Cto => Meaning::Take(Rest::of([
            Sym::OneProvince,
            Sym::Through,
            Sym::ProvincesGroup,
        ])),
        _ => Meaning::Stop,
    }
}
