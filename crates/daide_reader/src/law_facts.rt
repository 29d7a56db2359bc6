//! Uses each law of `laws` once, at concrete values, so that a weaker law does not check. Nothing here is called.

ghost use Rattle.std.specs.Prelude.{List, [], ◌∷◌, ℕ};
ghost use Rattle.daide_grammar.specs.declared.level.Level.TheVariants.{L0, L60};
ghost use Rattle.daide_grammar.specs.declared.side.Side2.TheVariants.{Client, ServerEnd};
ghost use Rattle.daide_grammar.specs.SideMessages.{IsMessage, IsMessageOver};
ghost use Rattle.daide_reader.specs.declared.verdict.Verdict.{Verdict};
ghost use Rattle.daide_reader.specs.declared.verdict.Verdict.TheVariants.{Huh, Prn, Relay};
ghost use Rattle.daide_reader.specs.ViablePrefix.{IsMessageOf};
ghost use Rattle.daide_reader.specs.Verdict.{HasVerdict};

use crate::laws;
use daide_grammar::plain::Plain;
use daide_grammar::predict::Predict;

/// A message with HUH at 1 does not have HUH at 0, and one with PRN is not relayed. GOF ( has a verdict by the plain
/// table, and by the grammar. That table relays what the grammar relays.
fn verdicts_at_values()
    ensures place { (m : List ℕ) →
        let message = IsMessageOf (⟦<Plain as Predict>⟧.language [] (⟦<Plain as Predict>⟧.start_symbol Client L0)) in
        HasVerdict message 62 m (Huh 1) → ¬ HasVerdict message 62 m (Huh 0) }
    ensures prn { (m : List ℕ) →
        let message = IsMessageOf (⟦<Plain as Predict>⟧.language [] (⟦<Plain as Predict>⟧.start_symbol ServerEnd L60)) in
        HasVerdict message 62 m Prn → ¬ HasVerdict message 62 m Relay }
    ensures some { (v : Verdict) × HasVerdict
        (IsMessageOf (⟦<Plain as Predict>⟧.language [] (⟦<Plain as Predict>⟧.start_symbol Client L0))) 62
        (0x4803 ∷ 0x4000 ∷ []) v }
    ensures grammar { (v : Verdict) × HasVerdict (IsMessage Client L0) 62 (0x4803 ∷ 0x4000 ∷ []) v }
    ensures relayed { (table : Plain) (m : List ℕ) →
        HasVerdict (IsMessageOver (⟦<Plain as Predict>⟧.words table) Client L60) 62 m Relay →
        HasVerdict (IsMessageOf (⟦<Plain as Predict>⟧.language (⟦<Plain as Predict>⟧.words table)
        (⟦<Plain as Predict>⟧.start_symbol Client L60))) 62 m Relay }
{
    laws::message_has_one_verdict::<Plain>();
    laws::message_has_a_verdict::<Plain>();
    laws::grammar_has_a_verdict();
    laws::plain_verdicts_are_the_grammars();
}
