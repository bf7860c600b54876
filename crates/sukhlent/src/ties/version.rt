// The version: its number comes back to a caller that gives nothing.
ghost use Rattle.std.specs.Prelude.{◌≡◌};
ghost use Rattle.sukhlent.specs.Version.{version_number};

use crate::version::sukhlent_version;

pub fn version_says() -> u32
    ensures { result ≡ version_number }
{
    sukhlent_version()
}
