//! One message.
ghost use Rattle.std.specs.Prelude.{◌≡◌};

use mn_base::NodeNo;
use std::marker::Model;

/// A message from a node to another.
#[derive(Debug, Drop)]
pub struct Letter {
    pub(crate) from: NodeNo,
    pub(crate) to: NodeNo,
    bytes: Vec<u8>,
}

impl Model for Letter {
    ghost use Rattle.mn_mail.specs.Mail.{Letter as LetterNow};

    ghost Value = { LetterNow };

    ghost view = { λ l. record { from = l.from.0; to = l.to.0; bytes = l.bytes.items } };
}

impl Letter {
    /// These bytes, from a node to another.
    pub fn new(from: NodeNo, to: NodeNo, bytes: Vec<u8>) -> Letter
        ensures { result ≡ record { from = from.0; to = to.0; bytes = bytes.items } }
    {
        Letter { from, to, bytes }
    }

    /// Who sent it.
    pub fn from(&self) -> NodeNo
        ensures { result.0 ≡ self.now.from }
    {
        self.from
    }

    /// To whom.
    pub fn to(&self) -> NodeNo
        ensures { result.0 ≡ self.now.to }
    {
        self.to
    }

    /// What it says.
    pub fn bytes(&self) -> &[u8]
        ensures { result.now ≡ self.now.bytes }
    {
        &self.bytes
    }
}
