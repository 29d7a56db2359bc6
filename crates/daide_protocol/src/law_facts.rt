//! Uses the laws that `laws` writes out once, at concrete values, so that a weaker law does not check.
//! `proofs/LawFacts` uses those that are definitions of `specs/`. Nothing here is called.

ghost use Rattle.std.specs.Prelude.{◌≡◌, true, ℕ, List, [], ◌∷◌};
ghost use Rattle.daide_frame.specs.declared.side.Side.TheVariants.{Bot};
ghost use Rattle.daide_grammar.specs.declared.level.Level.TheVariants.{L0, L60};
ghost use Rattle.daide_grammar.specs.declared.side.Side2.TheVariants.{Client, ServerEnd};
ghost use Rattle.daide_grammar.specs.SideMessages.{IsMessage, IsMessageOver};
ghost use Rattle.daide_reader.specs.declared.verdict.Verdict.TheVariants.{Huh, Prn, Relay};
ghost use Rattle.daide_reader.specs.ViablePrefix.{IsMessageOf};
ghost use Rattle.daide_reader.specs.Verdict.{HasVerdict};
ghost use Rattle.daide_words.specs.declared.word.Word.{Word};
ghost use Rattle.daide_words.specs.Word.{grammar_words};
ghost use Rattle.daide_words.specs.Accepted.{are_accepted};
ghost use Rattle.daide_words.specs.Words.{words_of};
ghost use Rattle.daide_protocol.specs.Events.{Comes, ImTimerExpired};
ghost use Rattle.daide_protocol.specs.Machine.{Effect, Runs, SessionState, Transition};

use crate::answers::{CLOSE_WORD, ERR_WORD, FM, HUH_OPEN, PRN_OPEN};
use crate::bounds::{MAX_BODY, MAX_DEPTH, MAX_SESSIONS, MIN_BODY, MIN_DEPTH, STACK_ENTRIES};
use crate::laws;
use daide_grammar::predict::Predict;
use daide_words::extended::Extended;
use daide_words::words::Words;

/// The bytes of PRN (, HUH (, ERR, ) and of a final message, and the limits as numbers.
fn constants_at_values()
    ensures prn { PRN_OPEN ≡ 0x48 ∷ 0x13 ∷ 0x40 ∷ 0x00 ∷ [] }
    ensures huh { HUH_OPEN ≡ 0x48 ∷ 0x06 ∷ 0x40 ∷ 0x00 ∷ [] }
    ensures err { ERR_WORD ≡ 0x49 ∷ 0x02 ∷ [] }
    ensures close { CLOSE_WORD ≡ 0x40 ∷ 0x01 ∷ [] }
    ensures fm { FM ≡ 0x03 ∷ 0x00 ∷ 0x00 ∷ 0x00 ∷ [] }
    ensures body { MAX_BODY ≡ 65526 }
    ensures least_body { MIN_BODY ≡ 512 }
    ensures depth { MAX_DEPTH ≡ 254 }
    ensures least_depth { MIN_DEPTH ≡ 4 }
    ensures entries { STACK_ENTRIES ≡ 1280 }
    ensures sessions { MAX_SESSIONS ≡ 256 }
{
    laws::words_are_those_of_the_definitions();
    laws::bounds_are_those_of_the_definitions();
}

/// With any single accepted word, a byte from the bot has a transition in each state, and then the timer has a run. The
/// verdicts of a session's reader are those of the grammar, without words and with the word.
fn words_at_values()
    ensures step { (word : Word) (old : SessionState) → are_accepted (word ∷ []) ≡ true →
        old.limits.words ≡ grammar_words (word ∷ []) →
        (effects : List Effect) × (new : SessionState) × Transition old (Comes Bot 0x00) effects new }
    ensures run { (word : Word) (old : SessionState) → are_accepted (word ∷ []) ≡ true →
        old.limits.words ≡ grammar_words (word ∷ []) →
        (effects : List Effect) × (new : SessionState) × Runs old (Comes Bot 0x00 ∷ ImTimerExpired ∷ []) effects new }
    ensures plain { (m : List ℕ) →
        HasVerdict (IsMessageOf (⟦<Extended as Predict>⟧.language [] (⟦<Extended as Predict>⟧.start_symbol Client L0))) 62 m
        (Huh 1) → HasVerdict (IsMessage Client L0) 62 m (Huh 1) }
    ensures worded { (word : Word) (m : List ℕ) → are_accepted (word ∷ []) ≡ true →
        HasVerdict (IsMessageOver (grammar_words (word ∷ [])) ServerEnd L60) 62 m Relay →
        HasVerdict (IsMessageOf (⟦<Extended as Predict>⟧.language (grammar_words (word ∷ []))
        (⟦<Extended as Predict>⟧.start_symbol ServerEnd L60))) 62 m Relay }
{
    laws::each_event_has_a_step_with_words();
    laws::events_have_a_run_with_words();
    laws::verdicts_are_the_grammars();
    laws::verdicts_with_words_are_the_grammars();
}

/// The same holds for the words of any value of `Words`.
fn held_at_values(words: &Words)
    ensures { (m : List ℕ) → let added = grammar_words (words_of words.now) in
        HasVerdict (IsMessageOf (⟦<Extended as Predict>⟧.language added (⟦<Extended as Predict>⟧.start_symbol Client L60))) 62
        m Prn → HasVerdict (IsMessageOver added Client L60) 62 m Prn }
{
    laws::verdicts_over(words);
}
