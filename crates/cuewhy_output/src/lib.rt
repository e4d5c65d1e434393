// What the program `cuewhy` writes: what is wrong with a list, in words.
#![tactic(auto)]

mod fault;
mod shown;

ghost use Rattle.std.specs.Prelude.{◌≡◌, ◌<◌, Some};
ghost use Rattle.cue.specs.Records.{record_at};
ghost use Rattle.list_reason.specs.Listing.{why_listed};
ghost use Rattle.text.specs.Room.{filled, put_at, text_left};
ghost use Rattle.cuewhy_output.specs.Wording.{place_text, accepted_text, refused_text};
ghost use Rattle.cuewhy_output.specs.Said.{said};

use cue::records;
use list_reason::ListFault;
use text::{line, pick};

// The most bytes that a list may have.
const MOST: usize = 1000000;

fn accepted(out: &mut [u8], n: usize) -> usize
    ensures { filled result out.new ≡ put_at (accepted_text n) 0 out.old }
{
    let at = line::numbered(out, 0, b"accepted, ", n as u64);
    text::put(out, at, pick(n == 1, b" record\n", b" records\n"))
}

fn place(out: &mut [u8], w: ListFault) -> usize
    ensures { filled result out.new ≡ put_at (place_text (why_listed (Some w))) 0 out.old }
{
    let at = line::numbered(out, 0, b"refused ", w.refusal.rule.number() as u64);
    let at = line::numbered(out, at, b" at ", w.refusal.place);
    let at = line::numbered(out, at, b" (byte ", w.offset);
    text::put(out, at, b"): ")
}

fn refused(out: &mut [u8], w: ListFault, rest: &[u8]) -> usize
    ensures { (filled result out.new ≡ put_at (refused_text (why_listed (Some w)) rest.now) 0 out.old)
        × ((record_at rest.now).space < 256) }
{
    let at = place(out, w);
    let r = records::record_at(rest);
    let at = fault::put_fault(out, at, w, r, rest);
    text::put(out, at, b"\n")
}

// The line to write stands at the front of the room; how many bytes it has is answered. `count`: the words that the program was
// started with, its name among them.
pub fn report(count: usize, list: &[u8], room: &mut [u8; 256]) -> usize
    ensures { filled result room.new ≡ text_left (said count list.now) room.old }
{
    if count != 1 {
        return text::put(room, 0, b"usage: cuewhy < LIST\n");
    }
    if MOST < list.len() {
        return line::too_long(room, 0);
    }
    let Some(w) = list_reason::why(list) else {
        return accepted(room, list_reason::walk(list).unwrap_or(0));
    };
    let at = w.offset as usize;
    refused(room, w, &list[at..])
}
