// A decimal's sixteen bytes: the lower eight are the value.
ghost use Rattle.std.specs.Prelude.{◌≡◌};
ghost use Rattle.scalar_bytes.specs.Encoding.{extension};

// The upper eight bytes: the sign.
pub fn extension(x: i64) -> u64
    ensures { result ≡ extension x }
{
    if x < 0 { 0xffff_ffff_ffff_ffff } else { 0 }
}
