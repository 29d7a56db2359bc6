//! Laws of the machine: functions with no parameters and an empty body, whose contracts are the laws.

ghost use Rattle.std.specs.Prelude.{◌≡◌, ◌↔◌, true, ℕ, List, []};
ghost use Rattle.daide_grammar.specs.declared.level.Level.{Level};
ghost use Rattle.daide_grammar.specs.declared.side.Side2.{Side2};
ghost use Rattle.daide_grammar.specs.Bounds.{cells_bound};
ghost use Rattle.daide_grammar.specs.SideMessages.{IsMessage, IsMessageOver};
ghost use Rattle.daide_reader.specs.declared.verdict.Verdict.{Verdict};
ghost use Rattle.daide_reader.specs.ViablePrefix.{IsMessageOf};
ghost use Rattle.daide_reader.specs.Verdict.{HasVerdict};
ghost use Rattle.daide_words.specs.declared.word.Word.{Word};
ghost use Rattle.daide_words.specs.Word.{grammar_words};
ghost use Rattle.daide_words.specs.Accepted.{are_accepted};
ghost use Rattle.daide_words.specs.Words.{words_of};
ghost use Rattle.daide_protocol.specs.Bounds.{longest_body, least_body, greatest_depth, least_depth, most_sessions};
ghost use Rattle.daide_protocol.specs.Answers.{prn_open, huh_open, err_bytes, close_bytes};
ghost use Rattle.daide_protocol.specs.Events.{Event};
ghost use Rattle.daide_protocol.specs.Machine.{Effect, Runs, SessionState, Transition, fm_bytes};
ghost use Rattle.daide_protocol.specs.Laws.{EachEventHasATransition, EventsHaveARun};
ghost use Rattle.daide_protocol.specs.Laws.{AnswersAreUnique, RunsJoin, AnswersJoin, PiecesDoNotMatter};
ghost use Rattle.daide_protocol.specs.Laws.{CallsDeliverTheAnswers, EachWireGetsTheAnswers, OnlyEventsMatter};
ghost use Rattle.daide_protocol.specs.Fates.{EachMessageHasOneFate};
ghost use Rattle.daide_protocol.specs.Passing.{OnlyMessagesPass};
ghost use Rattle.daide_protocol.specs.Harm.{ASideHarmsItselfAlone};
ghost use Rattle.daide_protocol.specs.Laws.{EndingIsKnown, CountsAreTheMoves, SidesAddUp, LevelIsKept};
ghost use Rattle.daide_protocol.specs.Laws.{NothingAfterTheEnd, FramesAreThoseOfTheCut, EachSideIsWaitedFor};

use crate::answers::{CLOSE_WORD, ERR_WORD, FM, HUH_OPEN, PRN_OPEN};
use crate::bounds::{MAX_BODY, MAX_DEPTH, MAX_SESSIONS, MIN_BODY, MIN_DEPTH, STACK_ENTRIES};
use daide_grammar::predict::Predict;
use daide_words::extended::Extended;
use daide_words::words::Words;

/// The words around an answer and the final message have the bytes that the definitions give them.
pub fn words_are_those_of_the_definitions()
    ensures prn { PRN_OPEN ≡ prn_open }
    ensures huh { HUH_OPEN ≡ huh_open }
    ensures err { ERR_WORD ≡ err_bytes }
    ensures close { CLOSE_WORD ≡ close_bytes }
    ensures fm { FM ≡ fm_bytes }
{}

/// The bounds on bodies, depths and sessions are those of the definitions, and a reader's stack has room for a message
/// of the greatest depth.
pub fn bounds_are_those_of_the_definitions()
    ensures body { MAX_BODY ≡ longest_body }
    ensures least_body { MIN_BODY ≡ least_body }
    ensures depth { MAX_DEPTH ≡ greatest_depth }
    ensures least_depth { MIN_DEPTH ≡ least_depth }
    ensures entries { STACK_ENTRIES ≡ cells_bound greatest_depth }
    ensures sessions { MAX_SESSIONS ≡ most_sessions }
{}

/// Each event has a step from each state, so the machine's table has every row, and every message has a verdict.
///
/// Premise: no operator's words.
pub fn each_event_has_a_step()
    ensures { EachEventHasATransition }
{}

/// Each list of events has a run from each state. By `answers_are_unique` it has one only, so the answers are a
/// function of the events.
///
/// Premise: no operator's words.
pub fn events_have_a_run()
    ensures { EventsHaveARun }
{}

/// A state and a list of events have at most one run. So the moves, the frames for each wire and the final state are
/// unique.
pub fn answers_are_unique()
    ensures { AnswersAreUnique }
{}

/// Two consecutive runs are one run of both lists of events, with the moves of both.
pub fn runs_join()
    ensures { RunsJoin }
{}

/// What a wire gets in two consecutive runs is what it gets in the first, then what it gets in the second.
pub fn answers_join()
    ensures { AnswersJoin }
{}

/// Two consecutive pieces of a side's bytes are the same events as the one piece that they make together.
pub fn pieces_do_not_matter()
    ensures { PiecesDoNotMatter }
{}

/// Over any list of calls, a session received events, and the machine has one run of them. What a wire took, and then
/// what waits for it, are the frames of this run. A wire that failed took a prefix of these, and nothing waits for it.
/// Each call acts by its contract (`AreCalls`).
///
/// Not said: that a wire's peer received what the wire took.
pub fn calls_deliver_the_answers()
    ensures { CallsDeliverTheAnswers }
{}

/// From a session's start to any time, a wire that did not fail took the machine's frames, except those that still wait
/// for it.
pub fn each_wire_gets_the_answers()
    ensures { EachWireGetsTheAnswers }
{}

/// The events that a session received decide its state and what its wires get. The pieces in which bytes come, and how
/// fast wires take bytes, change nothing.
pub fn only_events_matter()
    ensures { OnlyEventsMatter }
{}

/// Once over, a session sends nothing and does not change, whatever happens.
pub fn nothing_after_the_end()
    ensures { NothingAfterTheEnd }
{}

/// What ended a session is known if and only if it is over. It is the first event that ended it: the session was not
/// over before this event, and does not change after it. The table `events_ending_at` gives the ending, by this event
/// and what comes with it (`cause_at`).
pub fn ending_is_known()
    ensures { EndingIsKnown }
{}

/// Over any run, a session counts the frames that it sent, modulo 2^64, and the frames alone decide the counts
/// (`frames_counted`). `relayed` counts those sent toward a side that answer the other side. `prn` and `huh` count
/// those that return to the sender of their message and begin with that token. `faults` counts the session's own EMs. A
/// frame that is dropped, an end, and the FM that reports an end are not counted.
pub fn counts_are_the_moves()
    ensures { CountsAreTheMoves }
{}

/// Over any run, the counts of the two sides together are the counts of all effects, modulo 2^64: each frame that is
/// relayed, and each message that gets PRN or HUH, counts for exactly one side.
pub fn sides_add_up()
    ensures { SidesAddUp }
{}

/// While a session is open, the level of its account is the level of press by which it judges messages.
pub fn level_is_kept()
    ensures { LevelIsKept }
{}

/// A session goes by the headers, frames and faults that are those of the cut of all of a side's bytes, in order. They
/// are all of them while the session is not over, and those up to its end once it is.
pub fn frames_are_those_of_the_cut()
    ensures { FramesAreThoseOfTheCut }
{}

/// While a session is not over, bytes of each side are missing to its next frame. So a side has no room only while an
/// answer to its last frame waits, or after the end.
pub fn each_side_is_waited_for()
    ensures { EachSideIsWaitedFor }
{}

/// Each whole message received is relayed, or answered with PRN, or with HUH, once and in order, or the session ended
/// before. Each frame, fault, end and timeout received has exactly one move, in the order in which it became whole.
/// There is no other move (`HaveFates`).
///
/// A message is relayed if its verdict is `Relay`, and else returns to its sender within PRN or HUH (`IsMessageFate`).
/// The verdict is the grammar's (`HasVerdict`), by the level at the message's header. Every other frame is relayed,
/// except an FM or EM of the bot before the IM.
///
/// A fault is answered with an EM to its side and an FM to the other side. An end is answered with an FM to the other
/// side, and the timeout with an EM to the bot. No FM goes to the server before the IM. A side's whole frames are those
/// of the cut of all its bytes, and a prefix of them once the session is over (`frames`).
///
/// Premise: a run of the machine from a session's opening, with any operator's words. That such a run exists is
/// `events_have_a_run`; that it is the session's is `goes` of its calls.
pub fn each_message_has_one_fate()
    ensures { EachMessageHasOneFate }
{}

/// Every frame that a side is sent is whole, with a length that is right for its kind (`IsFrame`). It is an IM, RM, FM
/// or EM, or a message of one of three forms (`MayBeSent`). The first is a message of the other side at the level at
/// its header, paired and not too deep (`IsPassed`). The second is `PRN ( m )`, of depth 0, around a message m of the
/// side itself whose brackets are not paired (`IsWithinPrn`). The third is `HUH ( m )` with ERR inserted, around a
/// message m of the side itself that is paired and not relayed (`IsWithinHuh`). Its brackets balance, and it is one
/// bracket deeper than m. Each m was received (`HasCome`).
///
/// Premise: a run of the machine from a session's opening, with any operator's words and limits that a session accepts.
pub fn only_messages_pass()
    ensures { OnlyMessagesPass }
{}

/// A message that was refused changes nothing for the other side. Let a side's message be answered with PRN or HUH
/// (`HasRefused`); other events may come among its bytes. Then there is a run of the same events without these bytes,
/// with the same moves in the same order except the refusal (`IsAsIfUnsent`: `run`). Its final state is the same,
/// except for a level noted for a header that is not there. So the other side is sent the same frames (`sent`), and the
/// side itself the same except the refusal. By `answers_are_unique` this run is the only one.
///
/// Premise: a run of the machine from a session's opening, with any operator's words.
///
/// Not said: the same of a fault or an end, since it ends the session; nor that a wire is as fast.
pub fn a_side_harms_itself_alone()
    ensures { ASideHarmsItselfAlone }
{}

/// With accepted words too, each event has a step from each state.
pub fn each_event_has_a_step_with_words()
    ensures { (words : List Word) (old : SessionState) (event : Event) → are_accepted words ≡ true →
        old.limits.words ≡ grammar_words words →
        (effects : List Effect) × (new : SessionState) × Transition old event effects new }
{}

/// With accepted words too, each list of events has a run from each state.
pub fn events_have_a_run_with_words()
    ensures { (words : List Word) (old : SessionState) (events : List Event) → are_accepted words ≡ true →
        old.limits.words ≡ grammar_words words →
        (effects : List Effect) × (new : SessionState) × Runs old events effects new }
{}

/// Over a table without an operator's words, the verdicts of a session's reader are those of the grammar.
pub fn verdicts_are_the_grammars()
    ensures { (side : Side2) (level : Level) (max_depth : ℕ) (m : List ℕ) (v : Verdict) →
        HasVerdict (IsMessageOf (⟦<Extended as Predict>⟧.language [] (⟦<Extended as Predict>⟧.start_symbol side level)))
        max_depth m v ↔ HasVerdict (IsMessage side level) max_depth m v }
{}

/// With accepted words, the verdicts of a session's reader are those of the grammar with these words. `Channels::reply`
/// says that each answer has such a verdict (`right`).
pub fn verdicts_with_words_are_the_grammars()
    ensures { (words : List Word) (side : Side2) (level : Level) (max_depth : ℕ) (m : List ℕ) (v : Verdict) →
        are_accepted words ≡ true →
        HasVerdict (IsMessageOf (⟦<Extended as Predict>⟧.language (grammar_words words)
        (⟦<Extended as Predict>⟧.start_symbol side level))) max_depth m v
        ↔ HasVerdict (IsMessageOver (grammar_words words) side level) max_depth m v }
{}

/// With the words of a `Words` the same holds without a premise.
pub fn verdicts_over(words: &Words)
    ensures { (side : Side2) (level : Level) (max_depth : ℕ) (m : List ℕ) (v : Verdict) →
        let added = grammar_words (words_of words.now) in
        HasVerdict (IsMessageOf (⟦<Extended as Predict>⟧.language added (⟦<Extended as Predict>⟧.start_symbol side level)))
        max_depth m v ↔ HasVerdict (IsMessageOver added side level) max_depth m v }
{
    words.are_accepted();
    verdicts_with_words_are_the_grammars();
}
