//! Laws of what sessions send: functions without a body of their own, whose contracts are the laws.

ghost use Rattle.daide_session.specs.InARow.{InARowOver, TwoSessionsInARow};
ghost use Rattle.daide_session.specs.Joined.{JoinedSessions, JoinedSessionsOver};
ghost use Rattle.daide_session.specs.Joined.{LevelsAgreeTowardTheBot, LevelsAgreeTowardTheBotOver};
ghost use Rattle.daide_words.specs.Words.{words_of};

use daide_words::words::Words;

/// Of two gateways with the same limits and words, the next relays each message that the first sends toward it, with
/// two exceptions (`IsVerdictOfNext`). The first gateway's own answers PRN and HUH are among these messages. The next
/// answers HUH if it judges a message by a lower level than the first did. It answers HUH to the first gateway's own
/// HUH that is too deep by the bracket that the answer adds. It never answers PRN.
///
/// Premise: a run of the first gateway from a session's opening, accepted words, and limits that a session accepts. The
/// next may judge by any level; the levels of two gateways differ while an HLO is between them.
pub fn two_gateways_in_a_row()
    ensures { TwoSessionsInARow }
{}

/// With the words of a `Words` the same holds without a premise on words.
pub fn two_gateways_in_a_row_over(words: &Words)
    ensures { InARowOver (words_of words.now) }
{
    words.are_accepted();
    two_gateways_in_a_row();
}

/// Let the next of two gateways receive a prefix of what the first sends toward a side, in any pieces (`AreJoined`).
/// Then the whole frames that it receives from there are the first of those sent, byte for byte and in order
/// (`in_order`). It answers each message among them once, as `two_gateways_in_a_row` says, by the level that it noted
/// for the message (`fates`).
///
/// Premise: a run of each gateway from a session's opening, with the same limits and accepted words.
///
/// Not said: that the next receives all frames, since it may have ended before. The law is silent on faults. A HUH or
/// PRN of the first may be longer than the longest body, which is a fault at the next and ends it. A message of the
/// greatest depth that the next refuses for a lower level returns as a HUH that is too deep for the first. It goes to
/// and fro, eight bytes longer each time, until it is too long. What the next does at a fault, and with an IM, RM, FM
/// or EM, is `each_message_has_one_fate` of its own run.
pub fn joined_gateways()
    ensures { JoinedSessions }
{
    two_gateways_in_a_row();
}

/// With the words of a `Words` the same holds without a premise on words.
pub fn joined_gateways_over(words: &Words)
    ensures { JoinedSessionsOver (words_of words.now) }
{
    words.are_accepted();
    joined_gateways();
}

/// If the next of two joined gateways is nearer the bot, it never answers HUH for a lower level. It receives each HLO
/// that the first relayed, in its place, and relays it too. So it relays each message received from the first, except a
/// HUH of the first's own that is too deep by one bracket (`IsVerdictAtOneLevel`).
///
/// Not said: the same toward the server, where the farther gateway receives the server's HLO first.
pub fn levels_agree_toward_the_bot()
    ensures { LevelsAgreeTowardTheBot }
{
    joined_gateways();
}

/// With the words of a `Words` the same holds without a premise on words.
pub fn levels_agree_toward_the_bot_over(words: &Words)
    ensures { LevelsAgreeTowardTheBotOver (words_of words.now) }
{
    words.are_accepted();
    levels_agree_toward_the_bot();
}
