// A sentence for every number, for C.
ghost use Rattle.std.specs.Prelude.{◌≡◌};
ghost use Rattle.head.specs.SentenceExports.{sentence_left, export_sentence};

// `bytes` is the sentence's length, also where the room is too small.
#[unsafe(no_mangle)]
pub extern "C" fn head_sentence(number: u32, out: &mut [u8], bytes: &mut u64) -> u32
    ensures { sentence_left result bytes.new out.new ≡ export_sentence number out.old }
{
    let room = out.len();
    let n = sentence::whole(out, number);
    *bytes = n as u64;
    if room < n { 26 } else { 0 }
}
