//! Which library this is.
ghost use Rattle.std.specs.Prelude.{◌≡◌};

/// Returns the library's version as a number: 10,000 times its first part, 100 times the second, and
/// the third. A program that is linked to a shared library compares it with its header's.
#[unsafe(no_mangle)]
pub extern "C" fn pfair_version() -> u32
    ensures { result ≡ 600 }
{
    600
}
