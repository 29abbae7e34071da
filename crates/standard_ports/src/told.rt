// A socket with an account of what passed it.
ghost use Rattle.std.specs.Prelude.{◌≡◌, ◌<◌};
ghost use Rattle.standard_ports.specs.Told.{fresh_told, told_or};

use port_trait::{Account, Got, Hint, PortCall, Settled, Shutting, Took};
use relay_model::Shut;
use socket_kinds::Socket;
use std::marker::Model;

/// A socket of which is told what passed it, also where it tells nothing by itself. Each call is that call on the socket.
#[derive(Drop)]
pub struct ToldSocket<S> {
    socket: S,
    account: Account,
}

impl<S> Model for ToldSocket<S> {
    ghost use Rattle.standard_ports.specs.Told.{ToldState};

    ghost Value = { ToldState S };

    ghost view = { λ told. record { socket = told.socket; passed = told.account.passed } };
}

impl<S> ToldSocket<S> {
    /// The socket, from here on.
    pub fn new(socket: S) -> ToldSocket<S>
        ensures { result ≡ fresh_told socket }
    {
        ToldSocket {
            socket,
            account: Account::new(),
        }
    }

    /// The socket.
    pub fn socket(&self) -> &S
        ensures { result.now ≡ self.now.socket }
    {
        &self.socket
    }
}

impl<S: Socket> Socket for ToldSocket<S> {
    ghost gave = { λ told. told_or (S.gave told.socket) told.passed.gave };

    ghost took = { λ told. told_or (S.took told.socket) told.passed.took };

    ghost shuts = { λ told. told_or (S.shuts told.socket) told.passed.shuts };

    ghost hints = { λ told. S.hints told.socket };

    ghost answers_settle = { λ old new settled. S.answers_settle old.socket new.socket settled };

    ghost answers_finish = { λ old new how shutting. S.answers_finish old.socket new.socket how shutting };

    fn settle(&mut self) -> Settled {
        self.socket.settle()
    }

    #[tactic(auto, using(crate::proofs::Tellings::adds))]
    fn receive(&mut self, into: &mut [u8]) -> Got {
        let got = self.socket.receive(into);
        if let Got::Bytes(count) = got {
            self.account = self.account.with(&PortCall::Gave(&into[..count]));
        }
        got
    }

    #[tactic(auto, using(crate::proofs::Tellings::adds))]
    fn transmit(&mut self, bytes: &[u8]) -> Took {
        let took = self.socket.transmit(bytes);
        if let Took::Took(count) = took {
            self.account = self.account.with(&PortCall::Took(&bytes[..count]));
        }
        took
    }

    #[tactic(auto, using(crate::proofs::Tellings::adds))]
    fn transmit_packet(&mut self, bytes: &[u8]) -> Took {
        let took = self.socket.transmit_packet(bytes);
        if let Took::Took(_) = took {
            self.account = self.account.with(&PortCall::Took(bytes));
        }
        took
    }

    #[tactic(auto, using(crate::proofs::Tellings::notes))]
    fn finish(&mut self, how: Shut) -> Shutting {
        self.account = self.account.with(&PortCall::Shut(how));
        self.socket.finish(how)
    }

    fn hint(&self) -> Hint {
        self.socket.hint()
    }
}
