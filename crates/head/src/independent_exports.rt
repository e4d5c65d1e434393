// Two cue lists in either order.
ghost use Rattle.std.specs.Prelude.{◌≡◌};
ghost use Rattle.independent.specs.Independent.{independence, independence_listed};
ghost use Rattle.independent.specs.EitherOrder.{EitherOrder};
ghost use Rattle.head.specs.IndependentExports.{two_lists_left};

use crate::numbers::Numbers;
use independent::Independence;

fn numbers_of(answer: Independence) -> Numbers
    ensures { two_lists_left result.0 result.1 result.2 ≡ independence_listed answer }
{
    match answer {
        Independence::Independent => Numbers(0, 0, 0),
        Independence::Refused { list, refusal } => Numbers(
            refusal.rule.number(),
            list,
            refusal.place,
        ),
        Independence::Clash(index) => Numbers(51, 1, index),
    }
}

// Whether two lists may be run in either order. `list` is 0 for the first and 1 for the second, `place` a record's index.
#[unsafe(no_mangle)]
pub extern "C" fn head_independent(
    first: &[u8],
    second: &[u8],
    list: &mut u64,
    place: &mut u64,
) -> u32
    ensures answer { two_lists_left result list.new place.new ≡ independence first.now second.now }
    ensures either { result ≡ 0 → EitherOrder first.now second.now }
{
    let given = numbers_of(independent::independent(first, second));
    *list = given.1;
    *place = given.2;
    given.0
}
