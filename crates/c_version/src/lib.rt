// The library's version.
#![tactic(auto)]

ghost use Rattle.std.specs.Prelude.{◌≡◌};
ghost use Rattle.c_version.specs.Version.{version};

// The version as one number.
#[unsafe(no_mangle)]
pub extern "C" fn sarvoltig_version() -> u32
    ensures { result ≡ version }
{
    0x00_02_00
}
