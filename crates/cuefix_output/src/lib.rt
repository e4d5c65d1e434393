// What the salvaging program writes: a playable list, or an account of what was skipped, a line at a time.
#![tactic(auto)]

use salvage::scan;
use salvage::scan::Counts;
use text::find;

pub mod lines;

ghost use Rattle.std.specs.Prelude.{◌≡◌};
ghost use Rattle.cuefix_output.specs.Account.{answered, leaves, is_log, requested, most_read};
ghost use Rattle.cuefix_output.specs.Inside.{Taken, Saved};

// The most bytes that a list may have.
const MOST: usize = 1000000;

// What the program is asked for.
#[derive(Clone, Copy, Debug, PartialEq, Eq)]
pub enum Request {
    List,
    Log,
    Usage,
}

// What is to be written: a line; the playable list from the room, and its account to standard error; or the account alone. An account is a line
// or two for each entry of the log, and one for what was kept.
#[derive(Clone, Copy)]
pub enum Told {
    Usage,
    TooLong,
    List(Counts),
    Account(Counts),
}

#[tactic(auto, unfolding(crate::specs::Account::is_log, text::specs::Number::ascii))]
fn is_log(word: &[u8]) -> bool
    ensures { result ≡ is_log word.now }
{
    find::same(word, b"--log")
}

// `count`: how many words the program was started with, its name among them; `word`: the first behind it.
#[tactic(auto, unfolding(crate::specs::Account::requested))]
pub fn request_of(count: usize, word: &[u8]) -> Request
    ensures { result ≡ requested count word.now }
{
    match count {
        1 => Request::List,
        2 if is_log(word) => Request::Log,
        _ => Request::Usage,
    }
}

// The bytes of standard input that are looked at: one more than a list may have, and none where nothing is done with them.
#[tactic(auto, unfolding(crate::specs::Account::most_read))]
pub fn most_read(request: Request) -> usize
    ensures { result ≡ most_read request }
{
    match request {
        Request::Usage => 0,
        Request::List | Request::Log => 1000001,
    }
}

fn save(input: &[u8], room: &mut [u8], log: &mut [u64]) -> Counts
    requires { Taken input.now room.old log.old }
    ensures { Saved input.now room.old log.old room.new log.new result }
{
    let counts = scan::count(input);
    // Never refused: the rooms suffice for every list that is taken.
    let _ = salvage::salvage(input, room, log);
    counts
}

pub fn answer(
    request: Request,
    input: &[u8],
    room: &mut [u8; 1000000],
    log: &mut [u64; 285716],
) -> Told
    ensures { leaves result room.new log.new ≡ answered request input.now room.old log.old }
{
    if let Request::Usage = request {
        return Told::Usage;
    }
    if MOST < input.len() {
        return Told::TooLong;
    }
    let counts = save(input, room, log);
    match request {
        Request::Log => Told::Account(counts),
        _ => Told::List(counts),
    }
}
