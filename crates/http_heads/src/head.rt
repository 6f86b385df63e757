//! Reading the head of a request.
ghost use Rattle.std.specs.Prelude.{◌≡◌, ◌≤◌, true, length, take};
ghost use Rattle.vec_base.specs.Streams.{Loses};
ghost use Rattle.http_link.specs.Links.{left_on, coming_on, sent_on, risen_on, risen_by, has_risen};
ghost use Rattle.http_heads.specs.Heads.{HeadOf, Holds, IfTold, filled_of, LostBy};

use http_link::Link;
use httparse::Status;
use httparse::spans::{HeaderSpan, RequestSpans, parse_request};
use vec_base::ReadOutcome;

/// The most bytes of a head.
pub const HEAD_ROOM: usize = 8192;

/// The most fields of a head.
pub const MOST_FIELDS: usize = 64;

/// What was read: how many bytes, and where the parts of a whole head lie in them. Or no head is there, or nothing at all, or
/// a read failed.
#[derive(Clone, Copy, Debug, PartialEq, Eq)]
pub enum Head {
    Whole(usize, RequestSpans),
    Bad(usize),
    Empty,
    Lost(usize),
}

/// Reads until a whole head is there, or it is sure that none comes.
pub fn read_head<L: Link>(link: &mut L, buffer: &mut [u8], headers: &mut [HeaderSpan]) -> Head
    requires connection { L.here link.old ≡ true }
    requires buffer_room { length buffer.old ≡ HEAD_ROOM }
    requires field_room { length headers.old ≡ MOST_FIELDS }
    ensures here { L.here link.new ≡ true }
    ensures filled { filled_of result ≤ HEAD_ROOM }
    ensures took { Loses (left_on (L.told link.old)) (take (filled_of result) buffer.new) (left_on (L.told link.new)) }
    ensures held { Holds (take (filled_of result) buffer.new) headers.new result }
    ensures exact { IfTold (left_on (L.told link.old)) result }
    ensures coming { coming_on (L.told link.new) ≡ coming_on (L.told link.old) }
    ensures sent { sent_on (L.told link.new) ≡ sent_on (L.told link.old) }
    ensures risen { risen_on (L.told link.new) ≡ risen_by (has_risen (L.faults link.old) (L.faults link.new)) (risen_on (L.told link.old)) }
    ensures later { L.faults link.old ≤ L.faults link.new }
    ensures lost { LostBy (L.faults link.old) result (L.faults link.new) }
{
    let mut filled = 0;
    while filled < buffer.len() {
        match link.read(&mut buffer[filled..]) {
            ReadOutcome::Took(count) => {
                filled += count;
                match parse_request(&buffer[..filled], headers) {
                    Ok(Status::Complete(spans)) => return Head::Whole(filled, spans),
                    Ok(Status::Partial) => {}
                    Err(_) => return Head::Bad(filled),
                }
            }
            ReadOutcome::End => {
                return if filled == 0 {
                    Head::Empty
                } else {
                    Head::Bad(filled)
                };
            }
            ReadOutcome::Failed => return Head::Lost(filled),
        }
    }
    Head::Bad(filled)
}
