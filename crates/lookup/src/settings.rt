// The settings of a sheet.
ghost use Rattle.std.specs.Prelude.{◌≡◌, ◌+◌, ◌<◌, ◌^◌};
ghost use Rattle.le.specs.Floats.{f64_at};
ghost use Rattle.layout.specs.Places.{count_size};

use layout::COUNT_SIZE;
use le::floats::f64_at;
use sheet::View;

// A number of the settings, by its place among them.
pub fn setting_at(sheet: &View, offset: usize) -> f64
    requires { offset < 2 ^ 16 }
    ensures { result ≡ f64_at sheet.now.bytes.now (sheet.now.sections.settings + count_size + offset) }
{
    f64_at(
        sheet.bytes,
        usize::from(sheet.sections.settings) + COUNT_SIZE + offset,
    )
}
