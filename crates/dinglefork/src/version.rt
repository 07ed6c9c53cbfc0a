//! The call for the version.
ghost use Rattle.std.specs.Prelude.{◌≡◌};

const MAJOR: u32 = 0;

const MINOR: u32 = 1;

const PATCH: u32 = 0;

/// The version 0.1.0 as a number: 10,000 times its first part, plus 100 times its second, plus its third.
#[unsafe(no_mangle)]
pub extern "C" fn dinglefork_version() -> u32
    ensures { result ≡ 100 }
{
    10_000 * MAJOR + 100 * MINOR + PATCH
}
