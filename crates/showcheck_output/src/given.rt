// What the program is given besides its standard input.
ghost use Rattle.std.specs.Prelude.{◌≡◌};
ghost use Rattle.showcheck_output.specs.Given.{has_option, given_by, most_read};

use crate::MOST;
use why_output::words::is_option;

// No file, so that the card is fresh; a file of the store, or of store and pointers.
#[derive(Clone, Copy, Debug, PartialEq, Eq)]
pub enum Given {
    Nothing,
    Store,
    Both,
}

// The name of a file that cannot be opened, or other words.
#[derive(Clone, Copy, Debug, PartialEq, Eq)]
pub enum Fault {
    NoStore,
    NoPointers,
    Usage,
}

fn has_option(first: &[u8], second: &[u8]) -> bool
    ensures { result ≡ has_option first.now second.now }
{
    is_option(first) | is_option(second)
}

// `count`: the words that the program was started with, its name among them; `first` and `second`: those behind it, or nothing;
// `store` and `pointers`: whether the files named can be opened.
pub fn given_by(
    count: usize,
    first: &[u8],
    second: &[u8],
    store: bool,
    pointers: bool,
) -> Result<Given, Fault>
    ensures { result ≡ given_by count first.now second.now store pointers }
{
    if count < 2 {
        return Ok(Given::Nothing);
    }
    if has_option(first, second) | (3 < count) {
        return Err(Fault::Usage);
    }
    if !store {
        return Err(Fault::NoStore);
    }
    if count == 2 {
        return Ok(Given::Store);
    }
    if pointers {
        Ok(Given::Both)
    } else {
        Err(Fault::NoPointers)
    }
}

// The bytes of standard input that are looked at: one more than it may have, and none where nothing is done with them.
#[tactic(auto, unfolding(crate::specs::Given::most_read))]
pub fn most_read(given: Result<Given, Fault>) -> usize
    ensures { result ≡ most_read given }
{
    match given {
        Ok(_) => MOST + 1,
        Err(_) => 0,
    }
}
