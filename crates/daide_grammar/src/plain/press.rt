//! Predictions of arrangements, facts and press, each by its level.
#![tactic(auto, unfolding(crate::specs::Table::Symbols::table_answer, crate::specs::Table::Symbols::entries, crate::specs::Table::Symbols::may_end_of))]

ghost use Rattle.std.specs.Prelude.{◌≡◌, false, [], ◌∷◌};
ghost use Rattle.daide_grammar.specs.declared.symbol.Sym.TheVariants.{OperandGroup, Operands};
ghost use Rattle.daide_grammar.specs.Table.Answers.{Take, entry_of_meaning};
ghost use Rattle.daide_grammar.specs.Table.Symbols.{answer_by, entry_at, simple_entries, table_answer};

use crate::level::Level;
use crate::meaning::{Meaning, Rest};
use crate::symbol::Sym;
use daide_token::class::Class;

/// Predicts an arrangement other than AND and ORR, with the symbol for the operand of a NOT.
//
// It is inlined into its callers, so that the first token of an arrangement costs no call.
#[inline(always)]
fn simple(level: Level, inside: Sym, class: Class) -> Meaning
    ensures { entry_of_meaning result ≡ answer_by (entry_at class (simple_entries level inside)) false }
{
    match class {
        Class::Pce => Meaning::Take(Rest::of([Sym::PowersGroup])),
        Class::Aly => Meaning::Take(Rest::of([Sym::PowersGroup, Sym::Against, Sym::PowersGroup])),
        Class::Drw => Meaning::Take(Rest::of([Sym::MaybePowersGroup])),
        Class::Slo => Meaning::Take(Rest::of([Sym::PowerGroup])),
        Class::Not => Meaning::Take(Rest::of([inside])),
        Class::Xdo if level.number() >= 20 => Meaning::Take(Rest::of([Sym::OrderGroup])),
        Class::Dmz if level.number() >= 20 => Meaning::Take(Rest::of([
            Sym::PowersGroup,
            Sym::ProvincesGroup,
        ])),
        Class::Scd if level.number() >= 40 => Meaning::Take(Rest::of([
            Sym::ShareGroup,
            Sym::Shares,
        ])),
        Class::Occ if level.number() >= 40 => Meaning::Take(Rest::of([
            Sym::UnitGroup,
            Sym::UnitGroups,
        ])),
        _ => Meaning::Stop,
    }
}

/// Returns what follows AND and ORR: at least two operands.
#[inline(always)]
fn joined(level: Level) -> Meaning
    ensures { entry_of_meaning result ≡ Take (OperandGroup level ∷ OperandGroup level ∷ Operands level ∷ []) }
{
    Meaning::Take(Rest::of([
        Sym::OperandGroup(level),
        Sym::OperandGroup(level),
        Sym::Operands(level),
    ]))
}

/// Predicts an arrangement, with AND and ORR from level 30 on.
#[inline(always)]
pub fn arrangement(level: Level, class: Class) -> Meaning
    ensures { entry_of_meaning result ≡ table_answer (Sym.Arrangement level) class }
{
    match class {
        Class::And | Class::Orr if level.number() >= 30 => joined(level),
        _ => simple(level, Sym::ArrangementGroup(level), class),
    }
}

/// Predicts an operand of AND or ORR. From level 50 on it may contain AND and ORR, below that not at any depth of NOT.
#[inline(always)]
pub fn operand(level: Level, class: Class) -> Meaning
    ensures { entry_of_meaning result ≡ table_answer (Sym.Operand level) class }
{
    match class {
        Class::And | Class::Orr if level.number() >= 50 => joined(level),
        _ => simple(level, Sym::OperandGroup(level), class),
    }
}

/// Predicts a fact: an arrangement, and at level 60 also a query and the negation of a fact.
#[inline(always)]
pub fn fact(level: Level, class: Class) -> Meaning
    ensures { entry_of_meaning result ≡ table_answer (Sym.Fact level) class }
{
    match class {
        Class::Not if level.number() >= 60 => Meaning::Take(Rest::of([Sym::FactGroup(level)])),
        Class::Qry if level.number() >= 60 => Meaning::Take(Rest::of([Sym::ArrangementGroup(
            level,
        )])),
        _ => arrangement(level, class),
    }
}

/// Predicts a press: a statement, and at level 60 also a question, an insistence and a belief.
#[inline(always)]
pub fn press(level: Level, class: Class) -> Meaning
    ensures { entry_of_meaning result ≡ table_answer (Sym.Press level) class }
{
    match class {
        Class::Prp => Meaning::Take(Rest::of([Sym::ArrangementGroup(level)])),
        Class::Fct => Meaning::Take(Rest::of([Sym::FactGroup(level)])),
        Class::Try => Meaning::Take(Rest::of([Sym::WordsGroup])),
        Class::Yes | Class::Rej | Class::Bwx => Meaning::Take(Rest::of([Sym::PressGroup(level)])),
        Class::Huh => Meaning::Take(Rest::of([Sym::AnyGroup])),
        Class::Ins | Class::Qry | Class::Sug if level.number() >= 60 => {
            Meaning::Take(Rest::of([Sym::ArrangementGroup(level)]))
        }
        Class::Thk if level.number() >= 60 => Meaning::Take(Rest::of([Sym::FactGroup(level)])),
        Class::Idk | Class::Sry if level.number() >= 60 => Meaning::Take(Rest::of([Sym::PressGroup(
            level,
        )])),
        _ => Meaning::Stop,
    }
}

/// Predicts an optional send in brackets, which is allowed from level 10 on.
#[inline(always)]
pub fn maybe_send_group(level: Level, class: Class) -> Meaning
    ensures { entry_of_meaning result ≡ table_answer (Sym.MaybeSendGroup level) class }
{
    match class {
        Class::Bra if level.number() >= 10 => Meaning::Take(Rest::of([
            Sym::Send(level),
            Sym::Closing,
        ])),
        _ => Meaning::Skip,
    }
}

/// Predicts what follows the first bracket of a send: its turn, or the first of its powers.
#[inline(always)]
pub fn send_first(level: Level, class: Class) -> Meaning
    ensures { entry_of_meaning result ≡ table_answer (Sym.SendFirst level) class }
{
    match class {
        Class::Season => Meaning::Take(Rest::of([
            Sym::OneNumber,
            Sym::Closing,
            Sym::PowersGroup,
            Sym::PressGroup(level),
        ])),
        Class::Power => Meaning::Take(Rest::of([
            Sym::Powers,
            Sym::Closing,
            Sym::PressGroup(level),
        ])),
        _ => Meaning::Stop,
    }
}
