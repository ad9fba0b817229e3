//! Which library it is.
ghost use Rattle.std.specs.Prelude.{◌≡◌};

/// The number of the library's functions, numbers and structs, which `someip.h` has as
/// `SOMEIP_VERSION`. It rises with each change after which a program has to be compiled anew.
const VERSION: u32 = 1;

/// The version of the library that is linked.
#[unsafe(no_mangle)]
pub extern "C" fn someip_version() -> u32
    ensures { result ≡ 1 }
{
    VERSION
}
