// One column's root. Past the end it is 0.
ghost use Rattle.std.specs.Prelude.{◌≡◌, get_or};

pub fn root_of(roots: &[u8], column: u16) -> u8
    ensures { result ≡ get_or roots.now column 0 }
{
    roots.get(usize::from(column)).copied().unwrap_or(0)
}
