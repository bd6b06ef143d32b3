// Which version is linked.
ghost use Rattle.std.specs.Prelude.{◌≡◌};
ghost use Rattle.c_api.specs.Version.{version};

// The number that the header of the same version has as SLEEP_VERSION.
#[unsafe(no_mangle)]
pub extern "C" fn sleep_flat_version() -> u64
    ensures { result ≡ version }
{
    3051000
}
