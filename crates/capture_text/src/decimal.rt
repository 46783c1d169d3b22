//! Decimal digits, two at a time.
ghost use Rattle.std.specs.Prelude.{◌≡◌, ◌+◌, ◌/◌, ◌%◌, ◌<◌, ◌≤◌, ◌^◌, ◌∷◌, drop, length};
ghost use Rattle.std.specs.Fmt.{decimal};
ghost use Rattle.unit_fraction.specs.Text.{decimals};

/// The two digits of each number below 100.
static PAIRS: [u8; 200] =
    *b"00010203040506070809101112131415161718192021222324252627282930313233343536373839404142434445464748495051525354555657585960616263646566676869707172737475767778798081828384858687888990919293949596979899";

/// Puts the two digits of a number at a place of the room.
fn put_pair(number: u64, room: &mut [u8], place: usize)
    requires number { number < 100 }
    requires place { place + 2 ≤ length room.old }
    ensures { drop place room.new ≡ (48 + number / 10) ∷ (48 + number % 10) ∷ drop (place + 2) room.old }
{
    let from = 2 * number as usize;
    room[place] = PAIRS[from];
    room[place + 1] = PAIRS[from + 1];
}

/// Puts the digits of a number at the end of the room, and says where they start.
pub(crate) fn put_number(number: u64, room: &mut [u8]) -> usize
    requires { length room.old ≡ 20 }
    ensures within { result ≤ 20 }
    ensures text { drop result room.new ≡ decimal number }
{
    let mut rest = number;
    let mut start = room.len();
    while rest >= 100 {
        start -= 2;
        put_pair(rest % 100, room, start);
        rest /= 100;
    }
    if rest >= 10 {
        put_pair(rest, room, start - 2);
        return start - 2;
    }
    room[start - 1] = b'0' + rest as u8;
    start - 1
}

/// Puts the four digits of a number into the room.
fn put_four(number: u32, room: &mut [u8])
    requires number { number < 10 ^ 4 }
    requires room { length room.old ≡ 4 }
    ensures { room.new ≡ decimals 4 number }
{
    let high = 2 * (number / 100) as usize;
    let low = 2 * (number % 100) as usize;
    room[0] = PAIRS[high];
    room[1] = PAIRS[high + 1];
    room[2] = PAIRS[low];
    room[3] = PAIRS[low + 1];
}

/// Puts the eight digits of a number into the room.
fn put_eight(number: u32, room: &mut [u8])
    requires number { number < 10 ^ 8 }
    requires room { length room.old ≡ 8 }
    ensures { room.new ≡ decimals 8 number }
{
    put_four(number / 10_000, &mut room[..4]);
    put_four(number % 10_000, &mut room[4..]);
}

/// Puts the sixteen digits of a number into the room.
pub(crate) fn put_sixteen(number: u64, room: &mut [u8])
    requires number { number < 10 ^ 16 }
    requires room { length room.old ≡ 16 }
    ensures { room.new ≡ decimals 16 number }
{
    put_eight((number / 100_000_000) as u32, &mut room[..8]);
    put_eight((number % 100_000_000) as u32, &mut room[8..]);
}
