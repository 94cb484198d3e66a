// The attributes of a Set-Cookie line: whether Secure and HttpOnly are among them.
ghost use Rattle.std.specs.Prelude.{◌≡◌, ◌||◌};
ghost use Rattle.cookie.specs.SetCookie.{secure_word, http_only_word, is_called, flags_of};

use super::parts::{cut, is_word, trim};

#[derive(Clone, Copy, Default)]
pub struct Flags {
    pub secure: bool,
    pub http_only: bool,
}

impl Flags {
    // The flags, with those that an attribute raises.
    fn with(self, attribute: &[u8]) -> Flags
        ensures { (result.secure ≡ self.secure || is_called secure_word attribute.now)
            × (result.http_only ≡ self.http_only || is_called http_only_word attribute.now) }
    {
        let (name, _) = cut(attribute, b'=');
        let name = trim(name);
        Flags {
            secure: self.secure | is_word(name, b"secure"),
            http_only: self.http_only | is_word(name, b"httponly"),
        }
    }
}

// The flags of a line. What stands before its first `;` is passed over.
pub fn flags_of(line: &[u8]) -> Flags
    ensures { result ≡ flags_of line.now }
{
    let mut flags = Flags::default();
    let (_, mut left) = cut(line, b';');
    while let Some(rest) = left {
        let (attribute, behind) = cut(rest, b';');
        flags = flags.with(attribute);
        left = behind;
    }
    flags
}
