//! Predictions of client messages, and of lists of any tokens.
#![tactic(auto, unfolding(crate::specs::Table::Symbols::table_answer, crate::specs::Table::Symbols::entries, crate::specs::Table::Symbols::may_end_of))]

ghost use Rattle.std.specs.Prelude.{◌≡◌};
ghost use Rattle.daide_grammar.specs.Table.Answers.{entry_of_meaning};
ghost use Rattle.daide_grammar.specs.Table.Symbols.{table_answer};

use crate::level::Level;
use crate::meaning::{Meaning, Rest};
use crate::symbol::Sym;
use daide_token::class::Class;

/// Predicts words: any tokens other than brackets.
#[inline(always)]
pub fn word_list(class: Class) -> Meaning
    ensures { entry_of_meaning result ≡ table_answer Sym.WordList class }
{
    match class {
        Class::Bra | Class::Ket => Meaning::Skip,
        _ => Meaning::Take(Rest::of([Sym::WordList])),
    }
}

/// Predicts any tokens whose brackets balance.
#[inline(always)]
pub fn any(class: Class) -> Meaning
    ensures { entry_of_meaning result ≡ table_answer Sym.Any class }
{
    match class {
        Class::Bra => Meaning::Take(Rest::of([Sym::Any, Sym::Closing, Sym::Any])),
        Class::Ket => Meaning::Skip,
        _ => Meaning::Take(Rest::of([Sym::Any])),
    }
}

/// Predicts a client request. SND is one from level 10 on.
#[inline(always)]
pub fn request(level: Level, class: Class) -> Meaning
    ensures { entry_of_meaning result ≡ table_answer (Sym.Request level) class }
{
    match class {
        Class::Nme | Class::Adm => Meaning::Take(Rest::of([Sym::TextGroup, Sym::TextGroup])),
        Class::Iam => Meaning::Take(Rest::of([Sym::PowerGroup, Sym::NumberGroup])),
        Class::Obs | Class::Hlo | Class::Map | Class::Mdf | Class::Sco => Meaning::Take(Rest::of(
            [],
        )),
        Class::Now | Class::Ord | Class::Mis | Class::Gof => Meaning::Take(Rest::of([])),
        Class::Hst => Meaning::Take(Rest::of([Sym::TurnGroup])),
        Class::Sub => Meaning::Take(Rest::of([Sym::SubmitTail])),
        Class::Tme => Meaning::Take(Rest::of([Sym::MaybeNumberGroup])),
        Class::Drw => Meaning::Take(Rest::of([Sym::MaybePowersGroup])),
        Class::Not => Meaning::Take(Rest::of([Sym::CancelGroup])),
        Class::Snd if level.number() >= 10 => Meaning::Take(Rest::of([Sym::SendTail(level)])),
        _ => Meaning::Stop,
    }
}

/// Predicts a client's message: a request, a reply, or the report HUH.
#[inline(always)]
pub fn client(level: Level, class: Class) -> Meaning
    ensures { entry_of_meaning result ≡ table_answer (Sym.Client level) class }
{
    match class {
        Class::Yes | Class::Rej => Meaning::Take(Rest::of([Sym::ReplyGroup])),
        Class::Huh => Meaning::Take(Rest::of([Sym::AnyGroup])),
        _ => request(level, class),
    }
}

/// Predicts what follows the first bracket of a SUB: its turn, or its first order.
#[inline(always)]
pub fn submit_first(class: Class) -> Meaning
    ensures { entry_of_meaning result ≡ table_answer Sym.SubmitFirst class }
{
    match class {
        Class::Season => Meaning::Take(Rest::of([Sym::OneNumber, Sym::Closing, Sym::Orders])),
        Class::Bra => Meaning::Take(Rest::of([
            Sym::OneUnit,
            Sym::Closing,
            Sym::OrderTail,
            Sym::Closing,
            Sym::Orders,
        ])),
        Class::Power => Meaning::Take(Rest::of([Sym::Waived, Sym::Closing, Sym::Orders])),
        _ => Meaning::Stop,
    }
}

/// Predicts what a client may take back.
#[inline(always)]
pub fn cancel(class: Class) -> Meaning
    ensures { entry_of_meaning result ≡ table_answer Sym.Cancel class }
{
    match class {
        Class::Sub => Meaning::Take(Rest::of([Sym::SubmitTail])),
        Class::Gof => Meaning::Take(Rest::of([])),
        Class::Tme => Meaning::Take(Rest::of([Sym::MaybeNumberGroup])),
        Class::Drw => Meaning::Take(Rest::of([Sym::MaybePowersGroup])),
        _ => Meaning::Stop,
    }
}

/// Predicts the server's message that a client accepts or refuses.
#[inline(always)]
pub fn reply(class: Class) -> Meaning
    ensures { entry_of_meaning result ≡ table_answer Sym.Reply class }
{
    match class {
        Class::Map | Class::Sve | Class::Lod => Meaning::Take(Rest::of([Sym::TextGroup])),
        _ => Meaning::Stop,
    }
}
