// Numbers that digits write.
ghost use Rattle.std.specs.Prelude.{◌≡◌};
ghost use Rattle.text.specs.Numbers.{number_read};

// No number has more.
const MOST_DIGITS: usize = 10;

// What a text is, read as a number: one to ten digits, zeros in front among them, that make at most 4,294,967,295.
#[tactic(auto, using(crate::proofs::Reading::read_or_not))]
pub fn read_number(text: &[u8]) -> Option<u32>
    ensures { result ≡ number_read text.now }
{
    if text.is_empty() || MOST_DIGITS < text.len() {
        return None;
    }
    let mut number = 0u64;
    for &digit in text {
        if !digit.is_ascii_digit() {
            return None;
        }
        number = number * 10 + u64::from(digit - b'0');
    }
    u32::try_from(number).ok()
}
