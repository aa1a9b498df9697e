// What the speed comparison calls from Rust: whole loops over the library.
#![tactic(auto)]

ghost use Rattle.std.specs.Prelude.{◌≡◌};
ghost use Rattle.codec.specs.Utf8.{valid};

use codec::parse::utf8::is_utf8;

// numbers that come from Rust
mod masked;
// columns
pub mod runs;
// texts that come from Rust
mod spans;

// Whether the bytes are text.
#[unsafe(no_mangle)]
pub extern "C" fn bench_is_utf8(bytes: &[u8]) -> bool
    ensures { result ≡ valid bytes.now }
{
    is_utf8(bytes)
}
