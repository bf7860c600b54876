// The version, as C sees it.
ghost use Rattle.std.specs.Prelude.{◌≡◌};
ghost use Rattle.sukhlent.specs.Version.{version_number};

// The number of this version.
#[unsafe(no_mangle)]
pub extern "C" fn sukhlent_version() -> u32
    ensures { result ≡ version_number }
{
    1600
}
