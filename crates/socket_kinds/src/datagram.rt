// Sockets of datagrams (udp(7)).
ghost use Rattle.std.specs.Prelude.{◌≡◌, ◌≢◌, ◌<◌, ◌↔◌, ◌||◌, [], length, take, min, is_some, true, false, None, Some, IfSome, IfOk, IsTrue};
ghost use Rattle.port_trait.specs.{IsAtOnce, Gives, Accepts, AcceptsWhole};
ghost use Rattle.socket_kinds.specs.Accepting.{OnPort};
ghost use Rattle.socket_kinds.specs.Answering.{Answers, IsAccepted};
ghost use Rattle.std.specs.Io.{WritesAtMost};
ghost use Rattle.port_trait.specs.declared.answers.Settled.TheVariants as settles;
ghost use Rattle.port_trait.specs.declared.answers.Got.TheVariants as reads;
ghost use Rattle.port_trait.specs.declared.answers.Shutting.TheVariants as shuts;
ghost use Rattle.relay_model.specs.declared.acts.Shut.TheVariants as ways;
ghost use Rattle.socket_kinds.specs.Datagrams.{IsGiven, IsUnread, Asks, AsksPast, ReadsNext, ReceivesFrom, Sends, IsSentWhole, IsSentEmpty, held_after, datagram_hint, gives_none};
ghost use Rattle.socket_kinds.specs.declared.packet.FetchedPacket.TheVariants as fetches;
ghost use Rattle.socket_kinds.specs.declared.packet.Partner.TheVariants as partners;

use crate::answering::send_answer;
use crate::enrolled::{EnrolledUdp, PacketWire};
use crate::packet::{FetchedPacket, Packet, Partner};
use crate::socket::Socket;
use mio::{Interest, Registry};
use port_trait::{Got, Hint, Making, Settled, Shutting, Took};
use relay_model::{LONGEST_PACKET, Shut};
use std::alloc::Global;
use std::io;
use std::marker::Model;
use std::net::{SocketAddr, UdpSocket};
use std::sync::Arc;

/// How many datagrams of others one read drops at most.
const MOST_DROPPED: usize = 64;

/// A socket of datagrams with one partner, or of those of everyone. A datagram that is longer than a read is given in
/// parts. A `single` one gives the datagram that it took first, and then the end.
#[derive(Drop)]
pub struct DatagramSocket<U = EnrolledUdp> {
    wire: U,
    partner: Partner,
    packet: Packet,
    // whether the packet is still to be handed out
    waiting: bool,
    single: bool,
    // whether the last read left off among datagrams of others
    cut_short: bool,
}

impl<U> Model for DatagramSocket<U> {
    ghost use Rattle.std.specs.Prelude.{Some, None, if◌then◌else◌};
    ghost use Rattle.socket_kinds.specs.Datagrams.{DatagramState};

    ghost Value = { DatagramState U };

    ghost view = { λ socket. record {
      wire = socket.wire;
      partner = socket.partner;
      packet = socket.packet;
      rest = if socket.waiting then Some socket.packet else None;
      cut_short = socket.cut_short;
      single = socket.single;
    } };
}

impl DatagramSocket {
    /// The socket with the partner that it is connected to, of which nothing was read. The registry reports it under
    /// `key`. Never `Later`.
    pub fn new(
        alloc: Global,
        registry: &Arc<Registry, Global>,
        socket: UdpSocket,
        key: usize,
    ) -> Making<DatagramSocket>
        ensures at_once { IsAtOnce result }
        ensures fresh { OnPort (IsUnread partners.Connected) result }
    {
        DatagramSocket::with(alloc, registry, socket, key, Partner::Connected)
    }

    /// The same with the partner that has this address.
    pub fn to(
        alloc: Global,
        registry: &Arc<Registry, Global>,
        socket: UdpSocket,
        key: usize,
        partner: SocketAddr,
    ) -> Making<DatagramSocket>
        ensures at_once { IsAtOnce result }
        ensures fresh { OnPort (IsUnread (partners.At partner)) result }
    {
        DatagramSocket::with(alloc, registry, socket, key, Partner::At(partner))
    }

    /// The same of everyone's datagrams. Writes fail.
    pub fn of_all(
        alloc: Global,
        registry: &Arc<Registry, Global>,
        socket: UdpSocket,
        key: usize,
    ) -> Making<DatagramSocket>
        ensures at_once { IsAtOnce result }
        ensures fresh { OnPort (IsUnread partners.Anyone) result }
    {
        DatagramSocket::with(alloc, registry, socket, key, Partner::Anyone)
    }

    fn with(
        alloc: Global,
        registry: &Arc<Registry, Global>,
        socket: UdpSocket,
        key: usize,
        partner: Partner,
    ) -> Making<DatagramSocket>
        ensures at_once { IsAtOnce result }
        ensures fresh { OnPort (IsUnread partner) result }
    {
        let both = Interest::READABLE | Interest::WRITABLE;
        match EnrolledUdp::new(registry, socket, key, both) {
            Making::Made(enrolled) => DatagramSocket::over(alloc, enrolled, partner),
            Making::Later(_) | Making::Failed => Making::Failed,
            Making::Memory => Making::Memory,
        }
    }

    fn over(alloc: Global, enrolled: EnrolledUdp, partner: Partner) -> Making<DatagramSocket>
        ensures at_once { IsAtOnce result }
        ensures fresh { OnPort (IsUnread partner) result }
    {
        match Packet::new(alloc) {
            Ok(packet) => Making::Made(DatagramSocket {
                wire: enrolled,
                partner,
                packet,
                waiting: false,
                single: false,
                cut_short: false,
            }),
            Err(_) => Making::Memory,
        }
    }
}

impl<U: PacketWire> DatagramSocket<U> {
    /// Takes the next datagram, which stays to be read, and makes its sender the partner. Where it is to be `single`, the
    /// end comes behind it.
    pub(crate) fn take_first(&mut self, single: bool) -> io::Result<SocketAddr>
        ensures came { ReceivesFrom (U.receives_from self.old.wire self.new.wire) self.new.packet result }
        ensures partner { IfOk result (λ sender. self.new.partner ≡ partners.At sender) }
        ensures held { IfOk result (λ _. (self.new.rest ≡ Some self.new.packet) × (self.new.single ≡ single)) }
    {
        let sender = self.packet.receive_from(&mut self.wire)?;
        self.waiting = true;
        self.single = single;
        self.partner = Partner::At(sender);
        Ok(sender)
    }

    /// Asks the system once. What comes of the partner is held.
    fn fetch_one(&mut self) -> FetchedPacket
        ensures asked { Asks U.receives U.receives_from self.old.partner self.old.wire self.new.wire self.new.packet result }
        ensures held { self.new.rest ≡ held_after result self.new.packet }
        ensures same { (self.new.partner ≡ self.old.partner) × (self.new.cut_short ≡ self.old.cut_short)
            × (self.new.single ≡ self.old.single) }
    {
        let fetched = self.packet.fetch(&mut self.wire, self.partner);
        self.waiting = fetched == FetchedPacket::Datagram;
        fetched
    }

    /// Asks until a datagram of the partner comes or none does, and drops those of others, at most 64 of them.
    #[tactic(auto, using(crate::proofs::Packets::drops_none, crate::proofs::Packets::drops_one, crate::proofs::Packets::asks_past))]
    fn fetch_past_others(&mut self) -> FetchedPacket
        ensures asked { AsksPast U.receives U.receives_from self.old.partner self.old.wire self.new.wire self.new.packet result }
        ensures held { self.new.rest ≡ held_after result self.new.packet }
        ensures same { (self.new.partner ≡ self.old.partner) × (self.new.single ≡ self.old.single) }
    {
        for _ in 0..MOST_DROPPED - 1 {
            let fetched = self.fetch_one();
            if fetched != FetchedPacket::Others {
                return fetched;
            }
        }
        self.fetch_one()
    }

    /// Asks for a datagram of the partner. Where it leaves off among those of others, it is to look again.
    fn fetch(&mut self) -> FetchedPacket
        ensures asked { AsksPast U.receives U.receives_from self.old.partner self.old.wire self.new.wire self.new.packet result }
        ensures held { self.new.rest ≡ held_after result self.new.packet }
        ensures same { (self.new.partner ≡ self.old.partner) × (self.new.single ≡ self.old.single) }
        ensures left_off { IsTrue self.new.cut_short → result ≡ fetches.Others }
        ensures looks_again { result ≡ fetches.Others → IsTrue self.new.cut_short }
    {
        let fetched = self.fetch_past_others();
        self.cut_short = fetched == FetchedPacket::Others;
        fetched
    }

    /// Sends these bytes once, as one datagram to the partner.
    fn send(&mut self, bytes: &[u8]) -> io::Result<usize>
        ensures bound { WritesAtMost result bytes.now }
        ensures sent { Sends U.sends U.sends_to self.old.partner self.old.wire self.new.wire bytes.now result }
        ensures kept { self.new ≡ record self.old { wire = self.new.wire } }
    {
        match self.partner {
            Partner::Connected | Partner::Anyone => self.wire.send(bytes),
            Partner::At(partner) => self.wire.send_to(bytes, partner),
        }
    }
}

impl<U> DatagramSocket<U> {
    /// Hands out a front of the waiting datagram.
    fn give(&mut self, into: &mut [u8]) -> Got
        requires some { 0 < length into.old }
        requires waiting { is_some self.old.rest ≡ true }
        ensures given { IfSome self.old.rest (λ bytes. IsGiven bytes into.new self.new.rest result) }
        ensures same { (self.new.wire ≡ self.old.wire) × (self.new.partner ≡ self.old.partner)
            × (self.new.cut_short ≡ self.old.cut_short) × (self.new.single ≡ self.old.single) }
        ensures gives { Gives None None into.new result }
        ensures some { gives_none result ≡ false }
    {
        let all = self.packet.len();
        let count = self.packet.give(into);
        self.waiting = count < all;
        if all == 0 {
            return Got::Empty;
        }
        Got::Bytes(count)
    }
}

impl<U: PacketWire> Socket for DatagramSocket<U> {
    ghost hints = { datagram_hint };

    fn settle(&mut self) -> Settled
        ensures ready { result ≡ settles.Ready }
        ensures kept { self.new ≡ self.old }
    {
        Settled::Ready
    }

    /// The rest of the last datagram, or a front of the next one of the partner. It never joins two. The end comes behind
    /// a single one.
    fn receive(&mut self, into: &mut [u8]) -> Got
        requires { 0 < length into.old }
        ensures rest { IfSome self.old.rest (λ bytes. IsGiven bytes into.new self.new.rest result) }
        ensures next { self.old.rest ≡ None → self.old.single ≡ false
            → ReadsNext U.receives U.receives_from self.old.partner self.old.wire self.new.wire into.new self.new.rest result }
        ensures unasked { (is_some self.old.rest || self.old.single) ≡ true → self.new.wire ≡ self.old.wire }
        ensures partner { (self.new.partner ≡ self.old.partner) × (self.new.single ≡ self.old.single) }
        ensures end { (result ≡ reads.End) ↔ ((self.old.rest ≡ None) × (self.old.single ≡ true)) }
        ensures none { gives_none result ≡ true → self.new.rest ≡ None }
        ensures left_off { self.old.rest ≡ None → IsTrue self.new.cut_short → result ≡ reads.NotYet }
        ensures gives { Gives None None into.new result }
    {
        if self.waiting {
            return self.give(into);
        }
        if self.single {
            self.cut_short = false;
            return Got::End;
        }
        match self.fetch() {
            FetchedPacket::Datagram => self.give(into),
            FetchedPacket::Others | FetchedPacket::NotYet => Got::NotYet,
            FetchedPacket::Failed => Got::Failed,
        }
    }

    /// Sends at most 65,507 bytes as one datagram to the partner.
    fn transmit(&mut self, bytes: &[u8]) -> Took
        requires { 0 < length bytes.now }
        ensures once { Answers
            (Sends U.sends U.sends_to self.old.partner self.old.wire self.new.wire
            (take (min (length bytes.now) 65507) bytes.now)) (λ sent. IsAccepted sent result) }
        ensures accepts { Accepts None None bytes.now result }
        ensures kept { self.new ≡ record self.old { wire = self.new.wire } }
    {
        send_answer(&self.send(&bytes[..bytes.len().min(usize::from(LONGEST_PACKET))]))
    }

    /// Sends the bytes as one datagram to the partner.
    fn transmit_packet(&mut self, bytes: &[u8]) -> Took
        requires { 0 < length bytes.now }
        ensures once { Answers (Sends U.sends U.sends_to self.old.partner self.old.wire self.new.wire bytes.now)
            (λ sent. IsSentWhole (length bytes.now) sent result) }
        ensures accepts { AcceptsWhole None None bytes.now result }
        ensures kept { self.new ≡ record self.old { wire = self.new.wire } }
    {
        match send_answer(&self.send(bytes)) {
            Took::Took(count) if count != bytes.len() => Took::Failed,
            took => took,
        }
    }

    /// Sends an empty datagram at `Null` (socat(1), `shut-null`). The other ways do nothing, since a datagram has no
    /// end.
    fn finish(&mut self, how: Shut) -> Shutting
        ensures empty { how ≡ ways.Null
            → Answers (Sends U.sends U.sends_to self.old.partner self.old.wire self.new.wire []) (λ sent. IsSentEmpty
            sent result) }
        ensures untouched { how ≢ ways.Null → (result ≡ shuts.Done) × (self.new ≡ self.old) }
        ensures kept { self.new ≡ record self.old { wire = self.new.wire } }
    {
        match how {
            Shut::Null => match self.send(&[]) {
                Ok(_) => Shutting::Done,
                Err(_) => Shutting::Failed,
            },
            Shut::Nothing | Shut::Down | Shut::Close => Shutting::Done,
        }
    }

    /// It has bytes of a datagram, or left off looking for one.
    fn hint(&self) -> Hint
        ensures { result ≡ datagram_hint self.now }
    {
        Hint {
            readable: self.waiting || self.cut_short,
            writable: false,
        }
    }
}
