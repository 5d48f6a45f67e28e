ghost use Rattle.std.specs.Prelude.{◌≡◌, Some};
ghost use Rattle.charts.specs.Peers.{byte_of, peer_text, Reads};

use std::fmt;

// Whom an event is with: another instance, or the environment.
#[derive(Clone, Copy, PartialEq, Eq, Hash, Debug)]
pub enum Peer {
    Instance(u8),
    Environment,
}

// The byte of the environment: the number that tables have for it, read and written here alone.
const ENVIRONMENT: u8 = 255;

impl Peer {
    // The byte that stands for the peer.
    pub const fn byte(self) -> u8
        ensures { result ≡ byte_of self }
    {
        match self {
            Peer::Instance(i) => i,
            Peer::Environment => ENVIRONMENT,
        }
    }
}

impl From<Peer> for u8 {
    ghost from_gives = { λ peer byte. byte ≡ byte_of peer };

    fn from(peer: Peer) -> u8 {
        peer.byte()
    }
}

impl From<u8> for Peer {
    ghost from_gives = { Reads };

    fn from(byte: u8) -> Peer {
        match byte {
            ENVIRONMENT => Peer::Environment,
            i => Peer::Instance(i),
        }
    }
}

impl fmt::Display for Peer {
    ghost output = { λ peer. Some (peer_text peer) };

    fn fmt<W: fmt::Write>(&self, f: &mut fmt::Formatter<W>) -> fmt::Result {
        match self {
            Peer::Instance(i) => write!(f, "{i}"),
            Peer::Environment => f.write_str("env"),
        }
    }
}
