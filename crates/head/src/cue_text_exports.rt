// Cue lists as text, as C programs call it.
ghost use Rattle.std.specs.Prelude.{◌≡◌, take};
ghost use Rattle.cue_text.specs.TextShow.{TextShow};
ghost use Rattle.list_text.specs.SameList.{SameList};
ghost use Rattle.head.specs.CueTextExports.{text_left, export_assemble, export_list_text};

use crate::numbers::numbers_of;

// `bytes` is the list's length, or the refusal's place; `records` is 0 if refused.
#[unsafe(no_mangle)]
pub extern "C" fn head_assemble(
    text: &[u8],
    out: &mut [u8],
    bytes: &mut u64,
    records: &mut u64,
) -> u32
    ensures assembled { text_left result bytes.new records.new out.new
        ≡ export_assemble text.now out.old }
    ensures text_show { result ≡ 0 → TextShow text.now (take bytes.new out.new) }
{
    let given = numbers_of(cue_text::assemble(text, out));
    *bytes = given.1;
    *records = given.2;
    given.0
}

// `bytes` is the text's length, or the refusal's place; `lines` is 0 if refused.
#[unsafe(no_mangle)]
pub extern "C" fn head_list_text(
    list: &[u8],
    out: &mut [u8],
    bytes: &mut u64,
    lines: &mut u64,
) -> u32
    ensures written { text_left result bytes.new lines.new out.new
        ≡ export_list_text list.now out.old }
    ensures same_list { result ≡ 0 → SameList list.now (take bytes.new out.new) }
{
    let given = numbers_of(list_text::write(list, out));
    *bytes = given.1;
    *lines = given.2;
    given.0
}
