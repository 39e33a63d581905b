// Fields written to the front of the slice that is lent, the rest of it left as it was. The caller
// has seen that there is room.
#![tactic(auto, using(crate::proofs::FieldLaws::bytes_le), unfolding(crate::specs::Fields::onto))]

ghost use Rattle.std.specs.Prelude.{◌≡◌, ◌≤◌, length, ◌∷◌, []};
ghost use Rattle.le.specs.Fields.{onto, u16_bytes, u32_bytes, u64_bytes};

fn put<const N: usize>(out: &mut [u8], bytes: [u8; N])
    requires { N ≤ length out.old }
    ensures { out.new ≡ onto bytes.entry out.old }
{
    out[..N].copy_from_slice(&bytes);
}

// One function a width, each one line over `put`: a generic function would need a trait that holds the same lines.
pub fn put_byte(out: &mut [u8], v: u8)
    requires { 1 ≤ length out.old }
    ensures { out.new ≡ onto (v ∷ []) out.old }
{
    put(out, [v]);
}

pub fn put_u16(out: &mut [u8], v: u16)
    requires { 2 ≤ length out.old }
    ensures { out.new ≡ onto (u16_bytes v) out.old }
{
    put(out, v.to_le_bytes());
}

pub fn put_u32(out: &mut [u8], v: u32)
    requires { 4 ≤ length out.old }
    ensures { out.new ≡ onto (u32_bytes v) out.old }
{
    put(out, v.to_le_bytes());
}

pub fn put_u64(out: &mut [u8], v: u64)
    requires { 8 ≤ length out.old }
    ensures { out.new ≡ onto (u64_bytes v) out.old }
{
    put(out, v.to_le_bytes());
}
