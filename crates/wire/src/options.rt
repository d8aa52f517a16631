// The options of a HANDSHAKE.
ghost use Rattle.std.specs.Prelude.{◌≡◌, ◌+◌, ◌≤◌, ◌<◌, length, get_or, IfSome};
ghost use Rattle.wire.specs.Options.{head_size, body_size, option_size, options_size, fixed_tail, is_fixed};
ghost use Rattle.wire.specs.Steps.{some_size};

use crate::bytes;
use format::{Addressing, Format};

// The fixed options before and after the root's 32 bytes.
pub const FIXED_HEAD: [u8; 7] = [0, 1, 1, 1, 2, 0, 32];

const BINS_TAIL: [u8; 12] = [3, 1, 4, 2, 6, 0, 9, 0, 0, 4, 0, 255];

const RANGES_TAIL: [u8; 12] = [3, 1, 4, 2, 6, 2, 9, 0, 0, 4, 0, 255];

// Where the root and the options behind it begin, and the size of all.
pub const ROOT_PLACE: usize = 7;

pub const TAIL_PLACE: usize = ROOT_PLACE + 32;

pub const FIXED_SIZE: usize = TAIL_PLACE + 12;

// Those behind the root: option 6 names the method.
pub fn fixed_tail(format: Format) -> [u8; 12]
    ensures { result ≡ fixed_tail format }
{
    match format.addressing {
        Addressing::Bins => BINS_TAIL,
        Addressing::Ranges => RANGES_TAIL,
    }
}

// The size of an option up to the variable part of its value, by its code.
// Codes stay bytes: they are compared, since they rise.
fn head_size(code: u8) -> usize
    ensures { (result ≡ head_size code) × (result < 6) }
{
    match code {
        2 => 3,
        7 => 5,
        9 => 5,
        _ => 2,
    }
}

// The size of that variable part, which the option's length field says.
fn body_size(rest: &[u8], code: u8) -> usize
    requires code_value { code ≡ get_or rest.now 0 0 }
    requires code_in_bounds { head_size code ≤ length rest.now }
    ensures { (result ≡ body_size rest.now) × (result < 65536) }
{
    match code {
        2 => usize::from(bytes::load16(rest, 1)),
        8 => usize::from(rest[1]),
        _ => 0,
    }
}

// The code of End.
const END: u8 = 255;

// The size of the option at the front, whose code is to be at least `least`: 1 is End's, and none is refused.
fn option_size(rest: &[u8], least: u8) -> Option<usize>
    ensures size { result ≡ some_size (option_size least rest.now) }
    ensures inside { IfSome result (λ n. n ≤ length rest.now) }
{
    let [code, ..] = rest else {
        return None;
    };
    let code = *code;
    if code == END {
        return Some(1);
    }
    if code < least || 9 < code {
        return None;
    }
    let head = head_size(code);
    if rest.len() < head {
        return None;
    }
    let size = head + body_size(rest, code);
    if rest.len() < size {
        return None;
    }
    Some(size)
}

// Codes rise, so ten options and End are the most.
const MOST_OPTIONS: u32 = 11;

// Where the options end, End included, unless they are refused.
pub(crate) fn options_size(options: &[u8]) -> Option<usize>
    ensures size { result ≡ some_size (options_size options.now) }
    ensures inside { IfSome result (λ n. n ≤ length options.now) }
{
    let mut rest = options;
    let mut least: u8 = 0;
    let mut at: usize = 0;
    for _ in 0..MOST_OPTIONS {
        let size = option_size(rest, least)?;
        if size == 1 {
            return Some(at + 1);
        }
        least = rest[0] + 1;
        at += size;
        rest = &rest[size..];
    }
    None
}

// Whether they begin with the fixed options around some root.
pub(crate) fn is_fixed(format: Format, options: &[u8]) -> bool
    ensures { result ≡ is_fixed format options.now }
{
    if options.len() < FIXED_SIZE {
        return false;
    }
    let tail = fixed_tail(format);
    options.starts_with(&FIXED_HEAD) && options[TAIL_PLACE..].starts_with(&tail)
}
