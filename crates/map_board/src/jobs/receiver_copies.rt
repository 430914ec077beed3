//! Copies of receivers that take no memory.
ghost use Rattle.std.specs.Prelude.{◌≡◌, IfOk};

use crate::jobs::name_copies::NameCopy;
use scene_geom::Pt;
use scene_parts::{Name, NoMemory, Receiver};
use std::alloc::Global;
use std::marker::Model;

/// A copy of a receiver, whose name lies in the value itself. Contracts see it as the receiver.
#[derive(Drop)]
pub(crate) struct ReceiverCopy {
    name: NameCopy,
    pub at: Pt,
    h: u32,
}

impl Model for ReceiverCopy {
    ghost use Rattle.scene_parts.specs.Parts.{Receiver as ReceiverView, IsReceiver};

    ghost Value = { ReceiverView };

    ghost view = { λ r. record { name = r.name; at = r.at; h = r.h } };

    ghost invariant = { λ r. IsReceiver (record { name = r.name; at = r.at; h = r.h }) };
}

impl ReceiverCopy {
    /// A copy of this receiver.
    pub(crate) fn of(receiver: &Receiver) -> ReceiverCopy
        ensures { result ≡ receiver.now }
    {
        ReceiverCopy {
            name: NameCopy::of(&receiver.name),
            at: receiver.at,
            h: receiver.h,
        }
    }

    /// The name of the receiver.
    pub(crate) fn name(&self) -> &[u8]
        ensures { result.now ≡ self.now.name }
    {
        self.name.items()
    }

    /// The receiver itself, with memory for its name.
    pub(crate) fn to_receiver(&self, alloc: Global) -> Result<Receiver, NoMemory>
        ensures { IfOk result (λ receiver. receiver ≡ self.now) }
    {
        Ok(Receiver {
            name: Name::from_vec(self.name.items().to_vec(alloc)?),
            at: self.at,
            h: self.h,
        })
    }
}
