// Hexadecimal digits: either case is read, lower case is written.
ghost use Rattle.std.specs.Prelude.{◌≡◌, ◌*◌, ◌≤◌, ◌<◌, ◌/◌, ◌%◌, length};
ghost use Rattle.std.proofs.lemmas.List.Edits.{sets};
ghost use Rattle.script.specs.Hex.{digit_for, all_digits, encoded};
ghost use Rattle.script.specs.Steps.{digit_in, paired};

// The value of a digit. By hand: the library's `to_digit` is of characters, and gives a `u32`; a byte has none.
#[tactic(auto, using(std::proofs::lemmas::Bool::Decides::nat_tests), unfolding(crate::specs::Hex::digit_of))]
fn digit(c: u8) -> Option<u8>
    ensures { result ≡ digit_in c }
{
    match c {
        b'0'..=b'9' => Some(c - b'0'),
        b'A'..=b'F' => Some(c - b'A' + 10),
        b'a'..=b'f' => Some(c - b'a' + 10),
        _ => None,
    }
}

// The bytes of characters, two each, at the front of a room; whether all are digits. Nothing leaves the loop before its
// end, and `&` looks at both sides: so it is compiled without branches, for sixteen bytes at a time. Leaving it early
// takes four times as many instructions, `&&` six times.
pub(crate) fn decode(digits: &[u8], room: &mut [u8]) -> bool
    requires digits_len { length digits.now % 2 ≡ 0 }
    requires digits_in_bounds { length digits.now / 2 ≤ length room.old }
    ensures { (result ≡ all_digits digits.now)
        × (room.new ≡ sets room.old 0 (paired digits.now)) }
{
    let mut all = true;
    for (i, pair) in digits.chunks_exact(2).enumerate() {
        let high = digit(pair[0]);
        let low = digit(pair[1]);
        room[i] = high.unwrap_or(0) * 16 + low.unwrap_or(0);
        all &= high.is_some() & low.is_some();
    }
    all
}

// The digit of a value. By hand: the library's `from_digit` gives a character or none, and a byte is wanted.
#[tactic(auto, using(std::proofs::lemmas::Bool::Decides::nat_tests), unfolding(crate::specs::Hex::digit_for))]
fn digit_for(x: u8) -> u8
    requires { x < 16 }
    ensures { result ≡ digit_for x }
{
    if x < 10 { b'0' + x } else { b'a' - 10 + x }
}

// The digits of bytes, to a part of a room that they fill. By an index: after a loop over the part's
// `chunks_exact_mut` a proof does not know its elements.
pub(crate) fn encode(bytes: &[u8], part: &mut [u8])
    requires { length part.old ≡ 2 * length bytes.now }
    ensures { part.new ≡ encoded bytes.now }
{
    for (i, byte) in bytes.iter().enumerate() {
        part[2 * i] = digit_for(*byte / 16);
        part[2 * i + 1] = digit_for(*byte % 16);
    }
}
