// What a Set-Cookie line says of a cookie, for C and other languages, libcookie.a: include/cookie.h.
#![tactic(auto)]

ghost use Rattle.std.specs.Prelude.{◌≡◌};
ghost use Rattle.cookie.specs.Import.{imported};

use cookie::Imported;

#[unsafe(no_mangle)]
pub extern "C" fn cookie_import(host: u32, names: &[u8], text: &[u8]) -> Imported
    ensures { result ≡ imported host names.now text.now }
{
    cookie::cookie_import(host, names, text)
}
