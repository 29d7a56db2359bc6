//! Uses of the laws in `laws` that are about held words, each at one value, so that a weaker law does not check.
//! `proofs/LawFacts` uses the other laws. No function here is called.

ghost use Rattle.std.specs.Prelude.{◌≡◌, ℕ, List, [], ◌∷◌};
ghost use Rattle.daide_frame.specs.declared.side.Side.TheVariants.{Bot, Server};
ghost use Rattle.daide_frame.specs.declared.head.Kind.TheVariants.{Dm};
ghost use Rattle.daide_grammar.specs.declared.level.Level.{Level};
ghost use Rattle.daide_reader.specs.declared.verdict.Verdict.{Verdict};
ghost use Rattle.daide_words.specs.Word.{grammar_words};
ghost use Rattle.daide_words.specs.Words.{words_of};
ghost use Rattle.daide_protocol.specs.Events.{Event};
ghost use Rattle.daide_protocol.specs.Machine.{Effect, Limits, Runs, Sent, SessionState, initial_state};
ghost use Rattle.daide_protocol.specs.Wires.{sent_to};
ghost use Rattle.daide_protocol.specs.Fates.{IsJudged, came_in, frames_from};
ghost use Rattle.daide_protocol.specs.Passing.{IsFrame};
ghost use Rattle.daide_session.specs.InARow.{IsVerdictAtOneLevel, IsVerdictOfNext};
ghost use Rattle.daide_session.specs.Joined.{AreFirst, AreJoined, HaveFatesAtNext};

use crate::laws;
use daide_words::words::Words;

/// Proof only. With these words and bodies of at most 512 bytes: the next gateway gives such a verdict on the one
/// message sent to a bot. The frames that it hears are the first of those that the first gateway sent. Its levels agree
/// if it is nearer the bot.
fn held_at_values(words: &Words)
    ensures row { (limits : Limits) (events : List Event) (effects : List Effect) (new : SessionState)
        (run : Runs (initial_state limits) events effects new) → limits.words ≡ grammar_words (words_of words.now) →
        limits.cap ≡ 512 → (frame : Sent) → sent_to Bot effects ≡ frame ∷ [] →
        (body : List ℕ) (level : Level) (verdict : Verdict) → IsFrame Dm body frame.bytes →
        IsJudged limits Server level body verdict →
        IsVerdictOfNext limits (came_in (initial_state limits) events effects new run) Bot level body verdict }
    ensures joined { (limits : Limits) (events next_events : List Event) (effects next_effects : List Effect)
        (new next_new : SessionState) (run : Runs (initial_state limits) events effects new)
        (next_run : Runs (initial_state limits) next_events next_effects next_new) →
        limits.words ≡ grammar_words (words_of words.now) → limits.cap ≡ 512 → AreJoined Server effects next_events →
        AreFirst (frames_from Bot (came_in (initial_state limits) next_events next_effects next_new next_run))
        (sent_to Server effects) }
    ensures levels { (limits : Limits) (events next_events : List Event) (effects next_effects : List Effect)
        (new next_new : SessionState) (run : Runs (initial_state limits) events effects new)
        (next_run : Runs (initial_state limits) next_events next_effects next_new) →
        limits.words ≡ grammar_words (words_of words.now) → limits.cap ≡ 512 → AreJoined Bot effects next_events →
        HaveFatesAtNext (λ level. IsVerdictAtOneLevel limits (came_in (initial_state limits) events effects new run) Bot) Bot
        (came_in (initial_state limits) next_events next_effects next_new next_run) next_effects }
{
    laws::two_gateways_in_a_row_over(words);
    laws::joined_gateways_over(words);
    laws::levels_agree_toward_the_bot_over(words);
}
