// The version of the library, so that a program can tell whether its header fits the library that it is linked with.
ghost use Rattle.std.specs.Prelude.{◌≡◌};
ghost use Rattle.taplinen.specs.Version.{version_number};

const MAJOR: u32 = 0;

const MINOR: u32 = 1;

const PATCH: u32 = 0;

pub fn taplinen_version() -> u32
    ensures { result ≡ version_number }
{
    MAJOR * 1000000 + MINOR * 1000 + PATCH
}
