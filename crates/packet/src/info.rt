// The info areas.
ghost use Rattle.std.specs.Prelude.{◌≡◌, [], ◌∷◌, ◌%◌};
ghost use Rattle.lbp16.specs.Space.{space_of};
ghost use Rattle.packet.specs.Bytes.{pairs_of};
ghost use Rattle.packet.specs.Command.{bytes_of_area};

// Eight numbers, low bytes first: the four given, the pointer's low sixteen bits, and no name.
fn area(cookie: u16, sizes: u16, ranges: u16, pointer: u32) -> [u8; 16]
    ensures { result ≡ pairs_of (cookie ∷ sizes ∷ ranges ∷ pointer % 65536 ∷ 0 ∷ 0 ∷ 0 ∷ 0 ∷ []) }
{
    let c = cookie.to_le_bytes();
    let s = sizes.to_le_bytes();
    let r = ranges.to_le_bytes();
    let p = pointer.to_le_bytes();
    [
        c[0], c[1], s[0], s[1], r[0], r[1], p[0], p[1], 0, 0, 0, 0, 0, 0, 0, 0,
    ]
}

// The area of a space whose pointer stands at `pointer`: cookie, MEMSIZES, MEMRANGES, pointer and name; zeros of an absent one.
pub fn area_bytes(space: u8, pointer: u32) -> [u8; 16]
    ensures { result ≡ bytes_of_area (space_of space) pointer }
{
    match space {
        0 => area(0x5A00, 0x8104, 16, pointer),
        2 => area(0x5A02, 0x8E02, 7, pointer),
        6 => area(0x5A06, 0x8102, 5, pointer),
        7 => area(0x5A07, 0x0002, 5, pointer),
        _ => [0; 16],
    }
}
