//! What holds of every verdict.

ghost use Rattle.std.specs.Prelude.{◌≡◌, ◌↔◌, List, ℕ};
ghost use Rattle.daide_grammar.specs.declared.level.Level.{Level};
ghost use Rattle.daide_grammar.specs.declared.side.Side2.{Side2};
ghost use Rattle.daide_grammar.specs.declared.symbol.Sym.{Sym};
ghost use Rattle.daide_grammar.specs.SideMessages.{IsMessage, IsMessageOver};
ghost use Rattle.daide_grammar.specs.Words.{Words};
ghost use Rattle.daide_reader.specs.declared.verdict.Verdict.{Verdict};
ghost use Rattle.daide_reader.specs.ViablePrefix.{IsMessageOf};
ghost use Rattle.daide_reader.specs.Verdict.{HasVerdict};

use daide_grammar::plain::Plain;
use daide_grammar::predict::Predict;

/// A message has at most one verdict, and the place in it is part of it.
#[tactic(auto, using(crate::proofs::VerdictLemmas::verdict_is_one))]
pub fn message_has_one_verdict<T: Predict>()
    ensures { (words : Words) (first : Sym) (max_depth : ℕ) (m : List ℕ) (v w : Verdict) →
        HasVerdict (IsMessageOf (T.language words first)) max_depth m v →
        HasVerdict (IsMessageOf (T.language words first)) max_depth m w →
        v ≡ w }
{}

/// By the messages of any table, each list of tokens has a verdict.
pub fn message_has_a_verdict<T: Predict>()
    ensures { (words : Words) (side : Side2) (level : Level) (max_depth : ℕ) (m : List ℕ) →
        (v : Verdict) × HasVerdict (IsMessageOf (T.language words (T.start_symbol side level))) max_depth m v }
{}

/// By the grammar, each list of tokens has a verdict, for either side at every level.
pub fn grammar_has_a_verdict()
    ensures { (side : Side2) (level : Level) (max_depth : ℕ) (m : List ℕ) →
        (v : Verdict) × HasVerdict (IsMessage side level) max_depth m v }
{}

/// The verdicts of a reader over `Plain` are those of the grammar.
pub fn plain_verdicts_are_the_grammars()
    ensures { (table : Plain) (side : Side2) (level : Level) (max_depth : ℕ) (m : List ℕ) (v : Verdict) →
        let words = ⟦<Plain as Predict>⟧.words table in
        let first = ⟦<Plain as Predict>⟧.start_symbol side level in
        HasVerdict (IsMessageOf (⟦<Plain as Predict>⟧.language words first)) max_depth m v
        ↔ HasVerdict (IsMessageOver words side level) max_depth m v }
{}
