// The port behind a talk.
ghost use Rattle.std.specs.Prelude.{◌≡◌, ◌<◌, true, false, [], length};
ghost use Rattle.port_trait.specs.{Tallied, counted, begin_event, settle_event, read_event, write_event, shut_event, Begins, StandsBegun, Settles};
ghost use Rattle.port_trait.specs.{Reads, Writes, PutsAll, Shuts, HintsSo, MayHint, Reaps, JoinsSo};
ghost use Rattle.port_trait.specs.declared.answers.Begun.TheVariants as begins;
ghost use Rattle.port_trait.specs.declared.answers.Took.TheVariants as writes;
ghost use Rattle.tunnel_port.specs.Talks.{is_passed, is_over, settled_at, read_at, write_at, IsOnly, InTalk, IsJudged, ComesAbout, NonePassedOver, AsksBeneath};
ghost use Rattle.tunnel_port.specs.Tunnels.{fresh_tunnel, tunnel_seen, KeepsTalk};

use crate::progress::go_on;
use crate::stage::TalkStage;
use crate::talk::Talk;
use port_trait::{
    Begun, Got, Hint, Joining, Port, PortCounts, PortReap, Settled, Shutting, Took,
    count_beginning, count_reading, count_settling, count_shutting, count_writing, is_end,
};
use relay_model::Shut;
use std::marker::Model;

/// A port whose first bytes are a talk over the port beneath. Until the reply has granted the request nothing
/// else goes through; then each call is that call on the port beneath. Each answer is counted here, once.
#[derive(Drop)]
pub struct TunnelPort<P: Port, T: Talk> {
    inner: P,
    talk: T,
    said: usize,
    stage: TalkStage,
    counts: PortCounts,
    ended: bool,
}

impl<P: Port, T: Talk> Model for TunnelPort<P, T> {
    ghost use Rattle.tunnel_port.specs.Tunnels.{TunnelState};

    ghost Value = { TunnelState P T };

    ghost use Rattle.tunnel_port.specs.Talks.{InTalk, IsJudged};

    ghost view = { λ port. record { inner = port.inner; talk = port.talk; said = port.said; stage = port.stage; counts = port.counts; ended = port.ended } };

    ghost invariant = { λ port. InTalk (P.seen port.inner).took (P.seen port.inner).gave (T.asks port.talk) (T.heard port.talk) port.said port.stage
        × IsJudged (T.judges port.talk) (T.heard port.talk) T.limit port.stage };
}

impl<P: Port, T: Talk> TunnelPort<P, T> {
    /// The port behind this talk, of which nothing was said or heard yet. Nothing went through the port beneath.
    pub fn over(inner: P, talk: T) -> TunnelPort<P, T>
        requires untaken { IsOnly [] (P.seen inner).took }
        requires ungiven { IsOnly [] (P.seen inner).gave }
        requires unheard { T.heard talk ≡ [] }
        requires room { 0 < T.limit }
        ensures { result ≡ fresh_tunnel inner talk }
    {
        TunnelPort {
            inner,
            talk,
            said: 0,
            stage: TalkStage::Joining,
            counts: PortCounts::new(),
            ended: false,
        }
    }

    /// How far the talk has come.
    pub fn stage(&self) -> TalkStage
        ensures stage { result ≡ self.now.stage }
        ensures talk { InTalk (P.seen self.now.inner).took (P.seen self.now.inner).gave (T.asks self.now.talk)
            (T.heard self.now.talk) self.now.said self.now.stage }
        ensures judged { IsJudged (T.judges self.now.talk) (T.heard self.now.talk) T.limit self.now.stage }
    {
        self.stage
    }

    /// The talk.
    pub fn talk(&self) -> &T
        ensures { result.now ≡ self.now.talk }
    {
        &self.talk
    }

    /// The port beneath.
    pub fn inner(&self) -> &P
        ensures { result.now ≡ self.now.inner }
    {
        &self.inner
    }
}

impl<P: Port, T: Talk> Port for TunnelPort<P, T> {
    ghost seen = { tunnel_seen P.seen T.asks T.heard };

    ghost answers_settle = { λ old new settled. AsksBeneath P.answers_settle old.stage old.inner new.inner new.stage };

    ghost answers_shut = { λ old new how shutting. P.answers_shut old.inner new.inner how shutting };

    /// Begins the port beneath.
    #[tactic(auto, using(crate::proofs::Passing::talk_kept))]
    fn begin(&mut self) -> Begun
        ensures again { (P.seen self.old.inner).begun ≡ true → (result ≡ begins.Begun) × (self.new ≡ self.old) }
        ensures beneath { Begins (P.seen self.old.inner) (P.seen self.new.inner) result }
        ensures stands { StandsBegun (P.seen self.old.inner) (P.seen self.new.inner) result }
        ensures kept { self.new ≡ record self.old { inner = self.new.inner; counts = self.new.counts } }
        ensures counted { self.new.counts ≡ counted (begin_event result) self.old.counts }
        ensures counts { Tallied (begin_event result) self.old.counts self.new.counts }
    {
        let begun = self.inner.begin();
        count_beginning(&mut self.counts, begun);
        begun
    }

    /// Settles the port beneath, and then goes on with the talk as far as that port lets it. It is ready once the
    /// reply has granted the request; after a failure each further call fails.
    #[tactic(auto, using(crate::proofs::Passing::talk_follows))]
    fn settle(&mut self) -> Settled
        ensures answer { result ≡ settled_at self.new.stage }
        ensures cause { is_over self.old.stage ≡ false → ComesAbout self.new.stage (P.seen self.old.inner) (P.seen self.new.inner) }
        ensures packets { NonePassedOver self.new.stage (P.seen self.old.inner).empty_packets (P.seen self.new.inner).empty_packets }
        ensures asked { AsksBeneath P.answers_settle self.old.stage self.old.inner self.new.inner self.new.stage }
        ensures over { is_over self.old.stage ≡ true → self.new ≡ record self.old { counts = self.new.counts } }
        ensures talk { KeepsTalk P.seen T.asks T.heard self.new }
        ensures judged { IsJudged (T.judges self.new.talk) (T.heard self.new.talk) T.limit self.new.stage }
        ensures asks { T.asks self.new.talk ≡ T.asks self.old.talk }
        ensures settles { let seen = tunnel_seen P.seen T.asks T.heard in Settles (seen self.old) (seen self.new) result }
        ensures counted { self.new.counts ≡ counted (settle_event result) self.old.counts }
    {
        self.stage = go_on(&mut self.inner, &mut self.talk, &mut self.said, self.stage);
        let settled = self.stage.settle_answer();
        count_settling(&mut self.counts, settled);
        settled
    }

    /// Reads what lies behind the reply.
    #[tactic(auto, using(crate::proofs::Passing::talk_given, crate::proofs::Passing::talk_follows))]
    fn read(&mut self, into: &mut [u8]) -> Got
        requires { 0 < length into.old }
        ensures barred { is_passed self.old.stage ≡ false → (result ≡ read_at self.old.stage)
            × (self.new ≡ record self.old { counts = self.new.counts; ended = false }) }
        ensures beneath { is_passed self.old.stage ≡ true → Reads (P.seen self.old.inner) (P.seen self.new.inner) into.new result }
        ensures talk { KeepsTalk P.seen T.asks T.heard self.new }
        ensures reads { let seen = tunnel_seen P.seen T.asks T.heard in Reads (seen self.old) (seen self.new) into.new result }
        ensures kept { self.new ≡ record self.old { inner = self.new.inner; counts = self.new.counts; ended = self.new.ended } }
        ensures counted { self.new.counts ≡ counted (read_event result) self.old.counts }
    {
        if !self.stage.is_passed() {
            let got = self.stage.barred_read();
            self.ended = false;
            count_reading(&mut self.counts, got);
            return got;
        }
        let got = self.inner.read(into);
        self.ended = is_end(got);
        count_reading(&mut self.counts, got);
        got
    }

    /// Writes behind the request.
    #[tactic(auto, using(crate::proofs::Passing::talk_accepted, crate::proofs::Passing::talk_follows))]
    fn write(&mut self, bytes: &[u8]) -> Took
        requires { 0 < length bytes.now }
        ensures barred { is_passed self.old.stage ≡ false → (result ≡ write_at self.old.stage) × (self.new ≡ record self.old { counts = self.new.counts }) }
        ensures beneath { is_passed self.old.stage ≡ true → Writes (P.seen self.old.inner) (P.seen self.new.inner) bytes.now result }
        ensures talk { KeepsTalk P.seen T.asks T.heard self.new }
        ensures writes { let seen = tunnel_seen P.seen T.asks T.heard in Writes (seen self.old) (seen self.new) bytes.now result }
        ensures kept { self.new ≡ record self.old { inner = self.new.inner; counts = self.new.counts } }
        ensures counted { self.new.counts ≡ counted (write_event result) self.old.counts }
    {
        if !self.stage.is_passed() {
            let took = self.stage.barred_write();
            count_writing(&mut self.counts, took);
            return took;
        }
        let took = self.inner.write(bytes);
        count_writing(&mut self.counts, took);
        took
    }

    /// There are no packets behind a talk.
    fn send(&mut self, _bytes: &[u8]) -> Took
        ensures failed { result ≡ writes.Failed }
        ensures kept { self.new ≡ record self.old { counts = self.new.counts } }
        ensures counted { self.new.counts ≡ counted (write_event result) self.old.counts }
        ensures counts { Tallied (write_event result) self.old.counts self.new.counts }
    {
        let took = Took::Failed;
        count_writing(&mut self.counts, took);
        took
    }

    /// Writes all bytes behind the request. It fails before the request is granted.
    #[tactic(auto, using(crate::proofs::Passing::talk_accepted_all, crate::proofs::Passing::talk_follows))]
    fn put_all(&mut self, bytes: &[u8]) -> Took
        ensures barred { is_passed self.old.stage ≡ false → (result ≡ writes.Failed) × (self.new ≡ record self.old { counts = self.new.counts }) }
        ensures beneath { is_passed self.old.stage ≡ true → PutsAll (P.seen self.old.inner) (P.seen self.new.inner) bytes.now result }
        ensures talk { KeepsTalk P.seen T.asks T.heard self.new }
        ensures puts { let seen = tunnel_seen P.seen T.asks T.heard in PutsAll (seen self.old) (seen self.new) bytes.now result }
        ensures kept { self.new ≡ record self.old { inner = self.new.inner; counts = self.new.counts } }
        ensures counted { self.new.counts ≡ counted (write_event result) self.old.counts }
    {
        if !self.stage.is_passed() {
            let took = Took::Failed;
            count_writing(&mut self.counts, took);
            return took;
        }
        let took = self.inner.put_all(bytes);
        count_writing(&mut self.counts, took);
        took
    }

    /// Shuts the port beneath.
    #[tactic(auto, using(crate::proofs::Passing::talk_kept))]
    fn shut(&mut self, how: Shut) -> Shutting
        ensures asked { P.answers_shut self.old.inner self.new.inner how result }
        ensures beneath { Shuts (P.seen self.old.inner) (P.seen self.new.inner) how result }
        ensures kept { self.new ≡ record self.old { inner = self.new.inner; counts = self.new.counts } }
        ensures counted { self.new.counts ≡ counted (shut_event result) self.old.counts }
        ensures counts { Tallied (shut_event result) self.old.counts self.new.counts }
    {
        let shutting = self.inner.shut(how);
        count_shutting(&mut self.counts, shutting);
        shutting
    }

    /// What the port beneath hints.
    #[tactic(auto, using(crate::proofs::Passing::talk_kept))]
    fn hint(&mut self) -> Hint
        ensures beneath { HintsSo (P.seen self.old.inner) (P.seen self.new.inner) result }
        ensures kept { self.new ≡ record self.old { inner = self.new.inner } }
    {
        self.inner.hint()
    }

    fn may_hint(&self) -> Hint
        ensures { MayHint (P.seen self.now.inner) result }
    {
        self.inner.may_hint()
    }

    fn has_child(&self) -> bool
        ensures { result ≡ (P.seen self.now.inner).child }
    {
        self.inner.has_child()
    }

    /// Reaps the child of the port beneath.
    #[tactic(auto, using(crate::proofs::Passing::talk_kept))]
    fn reap(&mut self) -> PortReap
        ensures beneath { Reaps (P.seen self.old.inner) (P.seen self.new.inner) result }
        ensures kept { self.new ≡ record self.old { inner = self.new.inner } }
    {
        self.inner.reap()
    }

    /// Joins the port beneath.
    #[tactic(auto, using(crate::proofs::Passing::talk_kept))]
    fn join(&mut self) -> Joining
        ensures beneath { JoinsSo (P.seen self.old.inner) (P.seen self.new.inner) result }
        ensures kept { self.new ≡ record self.old { inner = self.new.inner } }
    {
        self.inner.join()
    }
}
