// Reads a sheet from standard input and writes the join's answer to standard output, or hex FF and the
// number of the refusal. Of more than 65,536 bytes the first 65,536 are read: they are too many for a
// sheet. A read or a write that fails ends the program with its error.
#![tactic(auto)]

ghost use Rattle.std.specs.Prelude.{◌≡◌, ◌≤◌, [], ◌∷◌, length, take};
ghost use Rattle.le.specs.Fields.{onto};
ghost use Rattle.join_answer.specs.Join.{join_result};
ghost use Rattle.join_sheet.specs.Reply.{reply_bytes};

use std::io;
use std::io::Read;

#[tactic(auto, unfolding(le::specs::Fields::onto))]
fn put_refusal(out: &mut [u8], n: u8)
    requires { 2 ≤ length out.old }
    ensures { out.new ≡ onto (0xFF ∷ n ∷ []) out.old }
{
    out[0] = 0xFF;
    out[1] = n;
}

// Puts the reply to the front of `out`, and gives its length.
fn put_reply(sheet: &[u8], out: &mut [u8]) -> usize
    requires { 65536 ≤ length out.old }
    ensures value { result ≡ length (reply_bytes (join_result sheet.now)) }
    ensures out_after { out.new ≡ onto (reply_bytes (join_result sheet.now)) out.old }
    ensures prefix_len { (result ≤ length out.new) × (length (take result out.new) ≡ result) }
{
    match estimates::join(sheet, out) {
        Ok(n) => n,
        Err(refusal) => {
            put_refusal(out, u8::from(refusal));
            2
        }
    }
}

fn main(rt: HostRuntime) -> io::Result<()> {
    let mut sheet = Vec::new(rt.alloc());
    rt.reader().take(65_536).read_to_end(&mut sheet)?;
    let mut out = vec![in rt.alloc(); 0u8; 65_536]?;
    let n = put_reply(&sheet, &mut out);
    rt.write_all(&out[..n])
}
