// The words of a layout.
ghost use Rattle.std.specs.Prelude.{◌≡◌, ◌≤◌, ◌∷◌, [], length};
ghost use Rattle.wire.proofs.Promise.{layout_said};
ghost use Rattle.std.proofs.lemmas.List.Edits.{sets};
ghost use Rattle.wire_c.specs.Words.{layout_words};
ghost use Rattle.wire_c.specs.Steps.{kind_of, root_of};

use wire::layout::Layout;
use wire::message::Options;

// The kind of a HANDSHAKE's options, and the place of their root.
fn options_words(options: Options) -> [u64; 2]
    ensures { result ≡ kind_of options ∷ root_of options ∷ [] }
{
    match options {
        Options::Fixed { root } => [1, root as u64],
        Options::EndOnly => [2, 0],
        Options::Other => [0, 0],
    }
}

fn put(out: &mut [u64], words: [u64; 6])
    requires { 6 ≤ length out.old }
    ensures { out.new ≡ sets out.old 0 words }
{
    out[..6].copy_from_slice(&words);
}

pub(crate) fn put_layout(out: &mut [u64], layout: Layout)
    requires { 6 ≤ length out.old }
    ensures { out.new ≡ sets out.old 0 (layout_words (layout_said (Ok layout))) }
{
    match layout {
        Layout::HandshakeAlone { source, options } => {
            let [kind, root] = options_words(options);
            put(out, [1, u64::from(source), kind, root, 0, 0]);
        }
        Layout::Messages { entries } => {
            put(out, [2, 0, 0, 0, 0, entries as u64]);
        }
        Layout::MessagesAndData {
            chunk,
            timestamp,
            start,
            len,
            entries,
        } => {
            put(
                out,
                [
                    3,
                    u64::from(chunk),
                    timestamp,
                    start as u64,
                    len as u64,
                    entries as u64,
                ],
            );
        }
    }
}
