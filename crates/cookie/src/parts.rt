// Parts of a text: what stands before and after a byte, what is left without the blanks at its ends, and whether it is a word.
ghost use Rattle.std.specs.Prelude.{◌≡◌, ◌==◌, ℕ, Bool, position};
ghost use Rattle.std.specs.Option.{option_copied};
ghost use Rattle.cookie.specs.Parts.{before, behind, is_blank, trim_start, trim_end, trim, is_word, StridesLack, Tests};

// How many bytes are looked at together, after as many have been looked at one by one.
const STRIDE: usize = 32;

// Where a byte first stands, looked for one by one.
fn find(text: &[u8], byte: u8) -> Option<usize>
    ensures { result ≡ position (λ next. next == byte) text.now }
{
    text.iter().position(|&next| next == byte)
}

// The same of what strides leave. Not made part of `position`, where the compiler puts what a miss answers into the loop, half as much work again.
#[inline(never)]
fn find_in_rest(text: &[u8], byte: u8) -> Option<usize>
    ensures { result ≡ position (λ next. next == byte) text.now }
{
    find(text, byte)
}

// Where a byte first stands. Most parts are short; in a long one, `contains` lets the processor compare the bytes of a stride at once, which is
// fifteen times as fast as `find` alone.
pub fn position(text: &[u8], byte: u8) -> Option<usize>
    ensures { result ≡ position (λ next. next == byte) text.now }
{
    if text.len() <= STRIDE {
        return find(text, byte);
    }
    let (near, far) = text.split_at(STRIDE);
    if let Some(at) = find(near, byte) {
        return Some(at);
    }
    let passed = STRIDE + STRIDE * strides_without(far, byte);
    Some(passed + find_in_rest(&text[passed..], byte)?)
}

// How many strides of a text come before the first that has a byte.
fn strides_without(text: &[u8], byte: u8) -> usize
    ensures { StridesLack byte text.now result }
{
    let (strides, _) = text.as_chunks::<STRIDE>();
    strides
        .iter()
        .position(|stride| stride.contains(&byte))
        .unwrap_or(strides.len())
}

// What stands before the first such byte, or all of the text, and what stands behind it, where there is one.
// Made part of its callers: lent pieces that a call hands back lie in memory, and then a line of semicolons takes 1.5 times as long.
#[inline(always)]
pub fn cut(text: &[u8], byte: u8) -> (&[u8], Option<&[u8]>)
    ensures front { result.0.now ≡ before byte text.now }
    ensures back { option_copied result.1 ≡ behind byte text.now }
{
    match position(text, byte) {
        Some(at) => (&text[..at], Some(&text[at + 1..])),
        None => (text, None),
    }
}

fn is_blank(byte: u8) -> bool
    ensures { result ≡ is_blank byte }
{
    matches!(byte, b' ' | b'\t')
}

fn trim_start(text: &[u8]) -> &[u8]
    ensures { result.now ≡ trim_start text.now }
{
    match text.iter().position(|&byte| !is_blank(byte)) {
        Some(first) => &text[first..],
        None => &[],
    }
}

// A text without the bytes at its end that pass a test.
pub fn trim_end<F: Fn(u8) -> bool>(text: &[u8], test: F) -> &[u8]
where
    F: Drop,
    requires { F.IsAlwaysCallable test }
    ensures { (p : ℕ → Bool) → Tests (F.post test) p → result.now ≡ trim_end p text.now }
{
    let mut rest = text;
    while let [front @ .., last] = rest {
        if !test(*last) {
            return rest;
        }
        rest = front;
    }
    rest
}

// A text without the blanks at its ends.
pub fn trim(text: &[u8]) -> &[u8]
    ensures { result.now ≡ trim text.now }
{
    trim_end(trim_start(text), is_blank)
}

// Whether a text is a word, which is given in small letters, in any case of its letters.
pub fn is_word(text: &[u8], word: &[u8]) -> bool
    ensures { result ≡ is_word word.now text.now }
{
    text.len() == word.len()
        && text
            .iter()
            .zip(word)
            .all(|(byte, letter)| byte.to_ascii_lowercase() == *letter)
}
