// Tighter packing: the checker, and the planner.
ghost use Rattle.std.specs.Prelude.{◌≡◌, take, Err};
ghost use Rattle.tight.specs.Tight.{check_listed};
ghost use Rattle.tight.specs.Demand3.{TightDemand3};
ghost use Rattle.head.specs.Exports.{given, compile_left};
ghost use Rattle.head.specs.TightExports.{tight_given, export_tight_check, TightenExport, EightExport};

use crate::numbers;
use crate::numbers::Numbers;
use tight::{Fault, TightAnswer};

fn of_fault(fault: Fault) -> Numbers
    ensures { given result.0 result.1 ≡ tight_given (check_listed (Err fault)) }
{
    match fault {
        Fault::Rejected => Numbers(50, 0, 0),
        Fault::List(r) => Numbers(r.rule.number(), r.place, 0),
    }
}

fn numbers_of(answer: TightAnswer) -> Numbers
    ensures { given result.0 result.1 ≡ tight_given (check_listed answer) }
{
    match answer {
        Ok(n) => Numbers(0, n, 0),
        Err(fault) => of_fault(fault),
    }
}

// Whether an output may stand for a list's own. `value` is the packet count, or the list's refusal's place, or 0 if rejected.
#[unsafe(no_mangle)]
pub extern "C" fn head_tight_check(list: &[u8], output: &[u8], value: &mut u64) -> u32
    ensures answer { given result value.new ≡ export_tight_check list.now output.now }
    ensures demand3 { result ≡ 0 → TightDemand3 list.now output.now value.new }
{
    let given = numbers_of(tight::check(list, output));
    *value = given.1;
    given.0
}

// Compiles a cue list into tighter packets. `bytes` is the output's length, or the refusal's place; `packets` is 0 if refused.
#[unsafe(no_mangle)]
pub extern "C" fn head_tighten(
    list: &[u8],
    out: &mut [u8],
    bytes: &mut u64,
    packets: &mut u64,
) -> u32
    ensures tightened { TightenExport list.now out.old
        (compile_left result bytes.new packets.new out.new) }
    ensures eight { EightExport list.now out.old (compile_left result bytes.new packets.new out.new) }
    ensures demand3 { result ≡ 0 → TightDemand3 list.now (take bytes.new out.new) packets.new }
{
    let given = numbers::numbers_of(planner::tighten(list, out));
    *bytes = given.1;
    *packets = given.2;
    given.0
}
