// Writes a line, a label and a digest, for each of FIPS 180-4's published messages and for the lengths around the
// padding's borders.
#![tactic(auto)]

use hash::message::sha256;
use hash::value::HashValue;
use std::io::Write;

// A label and a digest: two writes, of which the second has all of the digest, since standard output keeps nothing
// back. A write that fails loses its bytes, and that is not told.
fn write_line(output: &mut impl Write, label: &str, v: HashValue) {
    let mut line = [b'\n'; 66];
    let mut digits = &mut line[..65];
    let _ = write!(digits, " ");
    for x in hash::value::bytes(v) {
        let _ = write!(digits, "{x:02x}");
    }
    let _ = output.write_all(label.as_bytes());
    let _ = output.write_all(&line);
}

// A million times the letter a, block by block.
fn million() -> HashValue {
    let block = [b'a'; 64];
    let mut v = hash::message::initial();
    for _i in 0..15625u32 {
        v = hash::block::compress(v, &block, 0);
    }
    hash::message::finish(v, b"", 1_000_000)
}

fn published(output: &mut impl Write) {
    let messages = [
        ("empty", ""),
        ("abc", "abc"),
        (
            "fips-448",
            "abcdbcdecdefdefgefghfghighijhijkijkljklmklmnlmnomnopnopq",
        ),
        (
            "fips-896",
            "abcdefghbcdefghicdefghijdefghijkefghijklfghijklmghijklmnhijklmnoijklmnopjklmnopqklmnopqrlmnopqrsmnopqrstnopqrstu",
        ),
    ];
    for (label, message) in messages {
        write_line(output, label, sha256(message.as_bytes()));
    }
    write_line(output, "million-a", million());
}

// The lines of the bytes 0, 1, 2 and so on, modulo 256, n of them.
fn lengths(output: &mut impl Write) {
    let m: [u8; 1024] = std::array::from_fn(|i| (i % 256) as u8);
    let lines = [
        ("length-55", &m[..55]),
        ("length-56", &m[..56]),
        ("length-63", &m[..63]),
        ("length-64", &m[..64]),
        ("length-65", &m[..65]),
        ("length-119", &m[..119]),
        ("length-120", &m[..120]),
        ("length-127", &m[..127]),
        ("length-128", &m[..128]),
        ("length-1023", &m[..1023]),
        ("length-1024", &m[..1024]),
    ];
    for (label, message) in lines {
        write_line(output, label, sha256(message));
    }
}

fn main(rt: HostRuntime) {
    let mut output = rt.stdout();
    published(&mut output);
    lengths(&mut output);
}
