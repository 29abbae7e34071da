// How a talk goes on over the port beneath, as far as that lets it.
ghost use Rattle.std.specs.Prelude.{◌≡◌, ◌≢◌, ◌<◌, ◌≤◌, ◌+◌, true, false, length, take, None, IfSome};
ghost use Rattle.port_trait.specs.{Grew};
ghost use Rattle.port_trait.specs.declared.answers.Settled.TheVariants as settles;
ghost use Rattle.tunnel_port.specs.declared.stage.TalkStage.TheVariants as stages;
ghost use Rattle.tunnel_port.specs.Talks.{is_passed, is_over, IsOnly, behind_talk, InTalk, IsJudged, ComesAbout, NonePassedOver, AsksBeneath, LeavesBeneath, LeavesRequest, StillHears, Paused, nothing_of};

use crate::stage::TalkStage;
use crate::talk::{HeardReply, Talk};
use port_trait::{Got, Port, Settled, Took};

/// Writes what is left of the request, and answers how much of it is written then.
#[tactic(auto, using(crate::proofs::Fronts::only_more, crate::proofs::Fronts::nothing_adds))]
fn ask<P: Port>(inner: &mut P, request: &[u8], said: usize) -> (usize, Settled)
    requires within { said ≤ length request.now }
    requires asked { IsOnly (take said request.now) (P.seen inner.old).took }
    ensures within { result.0 ≤ length request.now }
    ensures asked { IsOnly (take result.0 request.now) (P.seen inner.new).took }
    ensures whole { result.1 ≡ settles.Ready → result.0 ≡ length request.now }
    ensures cause { Paused result.1 (P.seen inner.old).counts (P.seen inner.new).counts }
    ensures grew { Grew (P.seen inner.old).counts (P.seen inner.new).counts }
    ensures unsaid { nothing_of (P.seen inner.new).took ≡ nothing_of (P.seen inner.old).took }
    ensures kept { ((P.seen inner.new).gave ≡ (P.seen inner.old).gave) × ((P.seen inner.new).ended ≡ (P.seen inner.old).ended)
        × ((P.seen inner.new).empty_packets ≡ (P.seen inner.old).empty_packets) }
    ensures left { LeavesBeneath (P.seen inner.old) (P.seen inner.new) }
{
    let mut count = said;
    while count < request.len() {
        match inner.write(&request[count..]) {
            Took::Took(more) => count += more,
            Took::NotYet => return (count, Settled::NotYet),
            Took::Failed => return (count, Settled::Failed),
        }
    }
    (count, Settled::Ready)
}

/// Reads one byte and has it heard. None where the reply goes on.
#[tactic(auto, using(crate::proofs::Fronts::only_byte, crate::proofs::Fronts::nothing_adds))]
fn hear_byte<P: Port, T: Talk>(inner: &mut P, talk: &mut T) -> Option<TalkStage>
    requires hears { StillHears (T.judges talk.old) (T.heard talk.old) T.limit }
    requires heard { IsOnly (T.heard talk.old) (P.seen inner.old).gave }
    ensures more { result ≡ None → StillHears (T.judges talk.new) (T.heard talk.new) T.limit
        × IsOnly (T.heard talk.new) (P.seen inner.new).gave × (length (T.heard talk.new) ≡ length (T.heard talk.old) + 1) }
    ensures judged { IfSome result (λ stage. IsJudged (T.judges talk.new) (T.heard talk.new) T.limit stage) }
    ensures heard { IfSome result (λ stage. IsOnly (T.heard talk.new) (P.seen inner.new).gave) }
    ensures cause { IfSome result (λ stage. ComesAbout stage (P.seen inner.old) (P.seen inner.new)) }
    ensures packets { IfSome result (λ stage. NonePassedOver stage (P.seen inner.old).empty_packets (P.seen inner.new).empty_packets) }
    ensures joined { IfSome result (λ stage. stage ≢ stages.Joining) }
    ensures unended { result ≡ None → ((P.seen inner.new).ended ≡ false) × ((P.seen inner.new).empty_packets ≡ (P.seen inner.old).empty_packets) }
    ensures grew { Grew (P.seen inner.old).counts (P.seen inner.new).counts }
    ensures unheard { nothing_of (P.seen inner.new).gave ≡ nothing_of (P.seen inner.old).gave }
    ensures kept { (P.seen inner.new).took ≡ (P.seen inner.old).took }
    ensures left { LeavesRequest (T.asks talk.old) (T.asks talk.new) (P.seen inner.old) (P.seen inner.new) }
{
    let mut byte = [0];
    match inner.read(&mut byte) {
        Got::Bytes(_) => match talk.hear(byte[0]) {
            HeardReply::More => None,
            HeardReply::Granted => Some(TalkStage::Passed),
            HeardReply::Refused => Some(TalkStage::Refused),
        },
        Got::Empty | Got::End => Some(TalkStage::Cut),
        Got::NotYet => Some(TalkStage::Talking),
        Got::Failed => Some(TalkStage::Faulted),
    }
}

/// Reads the reply until it ends, or the port beneath has no more of it for now.
fn listen<P: Port, T: Talk>(inner: &mut P, talk: &mut T) -> TalkStage
    requires hears { StillHears (T.judges talk.old) (T.heard talk.old) T.limit }
    requires heard { IsOnly (T.heard talk.old) (P.seen inner.old).gave }
    ensures judged { IsJudged (T.judges talk.new) (T.heard talk.new) T.limit result }
    ensures heard { IsOnly (T.heard talk.new) (P.seen inner.new).gave }
    ensures cause { ComesAbout result (P.seen inner.old) (P.seen inner.new) }
    ensures packets { NonePassedOver result (P.seen inner.old).empty_packets (P.seen inner.new).empty_packets }
    ensures joined { result ≢ stages.Joining }
    ensures unheard { nothing_of (P.seen inner.new).gave ≡ nothing_of (P.seen inner.old).gave }
    ensures kept { (P.seen inner.new).took ≡ (P.seen inner.old).took }
    ensures left { LeavesRequest (T.asks talk.old) (T.asks talk.new) (P.seen inner.old) (P.seen inner.new) }
{
    loop {
        if let Some(stage) = hear_byte(inner, talk) {
            return stage;
        }
    }
}

/// Goes on with the talk: writes what is left of the request, and once it is written reads the reply.
#[tactic(auto, using(crate::proofs::Fronts::told_part, crate::proofs::Fronts::behind_part))]
fn talk_on<P: Port, T: Talk>(inner: &mut P, talk: &mut T, said: &mut usize) -> TalkStage
    requires talk { InTalk (P.seen inner.old).took (P.seen inner.old).gave (T.asks talk.old) (T.heard talk.old) said.old stages.Talking }
    requires hears { StillHears (T.judges talk.old) (T.heard talk.old) T.limit }
    ensures talk { InTalk (P.seen inner.new).took (P.seen inner.new).gave (T.asks talk.new) (T.heard talk.new) said.new result }
    ensures judged { IsJudged (T.judges talk.new) (T.heard talk.new) T.limit result }
    ensures cause { ComesAbout result (P.seen inner.old) (P.seen inner.new) }
    ensures packets { NonePassedOver result (P.seen inner.old).empty_packets (P.seen inner.new).empty_packets }
    ensures joined { result ≢ stages.Joining }
    ensures unsaid { behind_talk (is_passed result) (T.asks talk.new) (P.seen inner.new).took ≡ nothing_of (P.seen inner.old).took }
    ensures unheard { behind_talk (is_passed result) (T.heard talk.new) (P.seen inner.new).gave ≡ nothing_of (P.seen inner.old).gave }
    ensures left { LeavesRequest (T.asks talk.old) (T.asks talk.new) (P.seen inner.old) (P.seen inner.new) }
{
    let (written, asked) = ask(inner, talk.request(), *said);
    *said = written;
    match asked {
        Settled::Ready => listen(inner, talk),
        Settled::NotYet => TalkStage::Talking,
        Settled::Failed => TalkStage::Faulted,
    }
}

/// Settles the port beneath and goes on with the talk, as far as that port lets it. A talk that is over stays
/// as it is.
pub(crate) fn go_on<P: Port, T: Talk>(
    inner: &mut P,
    talk: &mut T,
    said: &mut usize,
    stage: TalkStage,
) -> TalkStage
    requires talk { InTalk (P.seen inner.old).took (P.seen inner.old).gave (T.asks talk.old) (T.heard talk.old) said.old stage }
    requires judged { IsJudged (T.judges talk.old) (T.heard talk.old) T.limit stage }
    ensures talk { InTalk (P.seen inner.new).took (P.seen inner.new).gave (T.asks talk.new) (T.heard talk.new) said.new result }
    ensures judged { IsJudged (T.judges talk.new) (T.heard talk.new) T.limit result }
    ensures cause { is_over stage ≡ false → ComesAbout result (P.seen inner.old) (P.seen inner.new) }
    ensures packets { NonePassedOver result (P.seen inner.old).empty_packets (P.seen inner.new).empty_packets }
    ensures beneath { AsksBeneath P.answers_settle stage inner.old inner.new result }
    ensures over { is_over stage ≡ true → (result ≡ stage) × (inner.new ≡ inner.old) × (talk.new ≡ talk.old) × (said.new ≡ said.old) }
    ensures unsaid { behind_talk (is_passed result) (T.asks talk.new) (P.seen inner.new).took
        ≡ behind_talk (is_passed stage) (T.asks talk.old) (P.seen inner.old).took }
    ensures unheard { behind_talk (is_passed result) (T.heard talk.new) (P.seen inner.new).gave
        ≡ behind_talk (is_passed stage) (T.heard talk.old) (P.seen inner.old).gave }
    ensures left { LeavesRequest (T.asks talk.old) (T.asks talk.new) (P.seen inner.old) (P.seen inner.new) }
{
    match stage {
        TalkStage::Joining => match inner.settle() {
            Settled::Ready => talk_on(inner, talk, said),
            Settled::NotYet => TalkStage::Joining,
            Settled::Failed => TalkStage::Faulted,
        },
        TalkStage::Talking => talk_on(inner, talk, said),
        TalkStage::Passed | TalkStage::Faulted | TalkStage::Refused | TalkStage::Cut => stage,
    }
}
