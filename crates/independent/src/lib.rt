// Whether two cue lists may be compiled apart and run in either order.
#![tactic(auto)]

mod marks;

ghost use Rattle.std.specs.Prelude.{◌≡◌, []};
ghost use Rattle.independent.specs.Independent.{independence, independence_listed};
ghost use Rattle.independent.specs.EitherOrder.{EitherOrder};
ghost use Rattle.independent.specs.Inside.{Accepted, Marked};

use cue::plan;
use lbp16::Refusal;

// What stands between two lists and either order. `list` is 0 for the first and 1 for the second; `Clash` is the index of the
// second list's first record that writes a cell which the first names, or names a cell which the first writes.
#[derive(Clone, Copy, Debug, PartialEq, Eq)]
pub enum Independence {
    Independent,
    Refused { list: u64, refusal: Refusal },
    Clash(u64),
}

fn compare(first: &[u8], second: &[u8], table: &mut [u8]) -> Independence
    requires { Accepted first.now × Accepted second.now × Marked [] table.old }
    ensures { independence_listed result ≡ independence first.now second.now }
{
    marks::mark(first, table);
    marks::first_clash(second, table)
}

// Lists that are independent do the same in either order.
pub fn independent(first: &[u8], second: &[u8]) -> Independence
    ensures answer { independence_listed result ≡ independence first.now second.now }
    ensures either { (independence_listed result).number ≡ 0 → EitherOrder first.now second.now }
{
    if let Err(refusal) = plan::plan(first) {
        return Independence::Refused { list: 0, refusal };
    }
    if let Err(refusal) = plan::plan(second) {
        return Independence::Refused { list: 1, refusal };
    }
    compare(first, second, &mut [0; 8216])
}
