// One record packed for a caller that keeps the packer and the open packet's room itself. What is kept is not trusted:
// where a number is out of range nothing is done.
ghost use Rattle.std.specs.Prelude.{◌≡◌, ◌≤◌};
ghost use Rattle.cue.specs.Untrusted.{any_of, loose_tests, turned_within, outside_tests, put_within};

use crate::frame::ROOM;
use crate::packer::Packer;
use crate::records::Record;
use crate::{emit, packer, records};
use lbp16::space;
use packet::command::LIMIT;

fn loose(p: Packer) -> bool
    ensures { result ≡ any_of (loose_tests p) }
{
    (127 < p.count)
        | ((packer::FULL < p.packet)
            | ((LIMIT < p.reply) | ((packer::OUTPUT < p.end) | (records::MOST < p.packets))))
}

// The packer after one record more.
pub fn turned(p: Packer, r: Record) -> Packer
    ensures { result ≡ turned_within p r }
{
    if loose(p) {
        return p;
    }
    packer::turned(p, r, space::row_of(r.space))
}

// `n`: the bytes of the record's element; `rest` and `room`: how many bytes there are.
fn outside(q: Packer, n: usize, rest: usize, room: usize) -> bool
    requires { n ≤ 4 }
    ensures { result ≡ any_of (outside_tests q n rest room) }
{
    (room < ROOM)
        | ((LIMIT < q.frame)
            | ((LIMIT < q.word)
                | (((q.word < 6) & q.unlock)
                    | ((ROOM < q.end)
                        | ((q.end < 4)
                            | ((7 < q.space)
                                | ((127 < q.count) | ((LIMIT < q.packet) | (rest < 6 + n)))))))))
}

// Writes the record at the front of `rest`, of which the packer `q` is already told.
pub fn put(q: Packer, rest: &[u8], room: &mut [u8])
    ensures { room.new ≡ put_within q rest.now room.old }
{
    let n = packer::carried(records::record_at(rest));
    if outside(q, n, rest.len(), room.len()) {
        return;
    }
    emit::put_record(room, q, rest, n);
}
