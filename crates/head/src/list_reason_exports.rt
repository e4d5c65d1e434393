// What is wrong with a cue list, for C.
ghost use Rattle.std.specs.Prelude.{◌≡◌, ◌≢◌, ◌≤◌};
ghost use Rattle.list_reason.specs.ListReason.{list_why, FrontGood};
ghost use Rattle.list_reason.specs.Listing.{cause_listed};
ghost use Rattle.head.specs.ListReasonExports.{list_why_left};

use list_reason::Cause;

fn cause_number(cause: Option<Cause>) -> u64
    ensures { result ≡ cause_listed cause }
{
    match cause {
        None => 0,
        Some(c) => c.number() as u64,
    }
}

// The compiler's refusal with 21 to 24, where the record at fault begins, and the first of the number's causes that holds.
#[unsafe(no_mangle)]
pub extern "C" fn head_list_why(
    list: &[u8],
    place: &mut u64,
    offset: &mut u64,
    cause: &mut u64,
) -> u32
    ensures why { list_why_left result place.new offset.new cause.new ≡ list_why list.now }
    ensures caused { 22 ≤ result → 1 ≤ cause.new }
    ensures front { result ≢ 0 → FrontGood list.now place.new offset.new }
{
    let fault = list_reason::why(list);
    match fault {
        None => {
            *place = 0;
            *offset = 0;
            *cause = 0;
            0
        }
        Some(w) => {
            *place = w.refusal.place;
            *offset = w.offset;
            *cause = cause_number(w.cause);
            w.refusal.rule.number()
        }
    }
}
