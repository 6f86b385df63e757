//! Connections that come one after another, each with bytes to read and room for bytes to write.
ghost use Rattle.std.specs.Prelude.{◌≡◌, ℕ, ◌<◌, ◌≤◌, ◌^◌, Bool, true, List, [], length};
ghost use Rattle.std.specs.declared.option.Option.{Option};
ghost use Rattle.vec_base.specs.declared.source.ReadOutcome.TheVariants.{Failed as ReadFailed};
ghost use Rattle.vec_base.specs.Streams.{Rose, ReadsFrom, WroteCause};
ghost use Rattle.http_link.specs.declared.link.Next.TheVariants.{Failed};
ghost use Rattle.http_link.specs.Links.{Told, left_on, coming_on, sent_on, risen_on, has_risen, is_conn, FitsRoom, NextComes, sent_next, risen_next, SendsTo, risen_by};

use vec_base::{ReadOutcome, WriteOutcome};

/// What asking for the next connection answers: it is there, none is to come, or the asking failed.
#[derive(Clone, Copy, Debug, PartialEq, Eq)]
pub enum Next {
    Conn,
    End,
    Failed,
}

/// Connections that come one after another. What it tells before a call it tells after it, and the reverse.
pub trait Link {
    /// Whether a connection is there.
    ghost here: { Self → Bool };

    /// What it tells: the bytes left on the connection that is there, the connections to come, the bytes sent on each one that
    /// came, and for each one that came whether the count of faults rose in a read or a write on it.
    ghost told: { Self → Option Told };

    /// How often a call has failed. A count at the last number of 64 bits stays there.
    ghost faults: { Self → ℕ };

    /// Ends the connection before, and takes the first of those to come.
    fn next(&mut self) -> Next
        ensures here { here self.new ≡ is_conn result }
        ensures comes { NextComes (told self.old) result (told self.new) }
        ensures sent { sent_on (told self.new) ≡ sent_next result (sent_on (told self.old)) }
        ensures risen { risen_on (told self.new) ≡ risen_next result (risen_on (told self.old)) }
        ensures later { faults self.old ≤ faults self.new }
        ensures failed { result ≡ Failed → Rose (faults self.old) (faults self.new) };

    /// Puts the first bytes that are left on the connection at the beginning of the room.
    fn read(&mut self, room: &mut [u8]) -> ReadOutcome
        requires connection { here self.old ≡ true }
        requires room { 0 < length room.old }
        ensures here { here self.new ≡ true }
        ensures count { FitsRoom (length room.old) result }
        ensures bytes { ReadsFrom (left_on (told self.old)) result room.new (left_on (told self.new)) }
        ensures coming { coming_on (told self.new) ≡ coming_on (told self.old) }
        ensures sent { sent_on (told self.new) ≡ sent_on (told self.old) }
        ensures risen { risen_on (told self.new) ≡ risen_by (has_risen (faults self.old) (faults self.new)) (risen_on (told self.old)) }
        ensures later { faults self.old ≤ faults self.new }
        ensures failed { result ≡ ReadFailed → Rose (faults self.old) (faults self.new) };

    /// Sends some of the first bytes on the connection.
    fn write(&mut self, bytes: &[u8]) -> WriteOutcome
        requires connection { here self.old ≡ true }
        requires bytes { 0 < length bytes.now }
        ensures here { here self.new ≡ true }
        ensures sent { SendsTo (sent_on (told self.old)) bytes.now result (sent_on (told self.new)) }
        ensures left { left_on (told self.new) ≡ left_on (told self.old) }
        ensures coming { coming_on (told self.new) ≡ coming_on (told self.old) }
        ensures risen { risen_on (told self.new) ≡ risen_by (has_risen (faults self.old) (faults self.new)) (risen_on (told self.old)) }
        ensures later { faults self.old ≤ faults self.new }
        ensures cause { WroteCause result (faults self.old) (faults self.new) };
}
