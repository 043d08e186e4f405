// Numbers in a line: decimal, without a sign and without leading zeros.
ghost use Rattle.std.specs.Prelude.{◌≡◌, ◌≢◌, ◌↔◌, ℕ, List, ◌+◌, ◌*◌, ◌^◌, ◌<◌, ◌≤◌, ◌∷◌, ◌++◌, length, slice_index, decimal, IsTrue, IfSome, MatchOption, SomeIff};
ghost use Rattle.trace_text.specs.Numbers.{HasDigits, HasTooManyDigits, IsNumberThen};

/// Numbers of so many digits are below 2^64, whichever they are.
const SAFE_DIGITS: usize = 19;

/// A number with one more digit; none where 64 bits are too few.
fn with_digit(value: u64, digit: u8) -> Option<u64>
    requires { digit < 10 }
    ensures { SomeIff result (value * 10 + digit < 2 ^ 64) (value * 10 + digit) }
{
    value.checked_mul(10)?.checked_add(u64::from(digit))
}

/// The value of the digits at the front of a text, and how many they are; none where they are more than 19. With fewer no sum
/// of theirs needs more than 64 bits.
#[inline(always)]
fn read_few_digits(text: &[u8]) -> Option<(u64, usize)>
    ensures { IfSome result (λ found. HasDigits text.now found.0 found.1) }
{
    let mut value: u64 = 0;
    let mut many = 0;
    while many < text.len() {
        let byte = text[many];
        if !byte.is_ascii_digit() {
            break;
        }
        if many == SAFE_DIGITS {
            return None;
        }
        value = value * 10 + u64::from(byte - b'0');
        many += 1;
    }
    Some((value, many))
}

/// The value of the digits at the front of a text, however many, and how many they are; none where 64 bits are too few.
#[inline(never)]
fn read_many_digits(text: &[u8]) -> Option<(u64, usize)>
    ensures { MatchOption result (HasTooManyDigits text.now) (λ found. HasDigits text.now found.0 found.1) }
{
    let mut value: u64 = 0;
    for (i, byte) in text.iter().enumerate() {
        if !byte.is_ascii_digit() {
            return Some((value, i));
        }
        match with_digit(value, *byte - b'0') {
            Some(further) => value = further,
            None => return None,
        }
    }
    Some((value, text.len()))
}

/// The value of the digits at the front of a text, and how many they are; none where 64 bits are too few.
#[inline(always)]
fn read_digits(text: &[u8]) -> Option<(u64, usize)>
    ensures { MatchOption result (HasTooManyDigits text.now) (λ found. HasDigits text.now found.0 found.1) }
{
    match read_few_digits(text) {
        Some(found) => Some(found),
        None => read_many_digits(text),
    }
}

/// Whether these many digits at the front of a text begin with a zero that a number does without.
fn is_padded(text: &[u8], many: usize) -> bool
    requires { many ≤ length text.now }
    ensures { IsTrue result ↔ ((1 < many) × (slice_index text.now 0 ≡ 48)) }
{
    many > 1 && text[0] == b'0'
}

/// The number of 64 bits at the front of a text, and what follows it; none where there is no such number.
#[inline(always)]
pub fn read_number(text: &[u8]) -> Option<(u64, &[u8])>
    ensures { MatchOption result ((number : ℕ) (rest : List ℕ) → ¬ (IsNumberThen text.now number rest)) (λ found. IsNumberThen text.now found.0 found.1.now) }
{
    let (number, many) = read_digits(text)?;
    if many == 0 {
        return None;
    }
    if is_padded(text, many) {
        return None;
    }
    Some((number, &text[many..]))
}

/// What follows these bytes in a text; none where the text does not begin with them.
pub fn after<'a>(text: &'a [u8], front: &[u8]) -> Option<&'a [u8]>
    ensures { MatchOption result ((rest : List ℕ) → text.now ≢ front.now ++ rest) (λ rest. text.now ≡ front.now ++ rest.now) }
{
    text.strip_prefix(front)
}

/// The digit that a line is up to its first space, and what follows the space; none where it begins otherwise.
#[inline(always)]
fn read_digit_field(line: &[u8]) -> Option<(u64, &[u8])>
    ensures { IfSome result (λ found. (found.0 < 10) × (line.now ≡ (48 + found.0) ∷ 32 ∷ found.1.now)) }
{
    match line {
        [digit, b' ', rest @ ..] if digit.is_ascii_digit() => Some((
            u64::from(*digit - b'0'),
            rest,
        )),
        _ => None,
    }
}

/// What follows the space that a text begins with; none where it begins with none.
#[inline(always)]
fn behind_space(text: &[u8]) -> Option<&[u8]>
    ensures { MatchOption result ((rest : List ℕ) → text.now ≢ 32 ∷ rest) (λ rest. text.now ≡ 32 ∷ rest.now) }
{
    match text {
        [b' ', rest @ ..] => Some(rest),
        _ => None,
    }
}

/// The number of 64 bits up to the first space of a line, and what follows the space; none where that is no number of at most
/// `most`.
#[inline(always)]
fn read_long_field(line: &[u8], most: u64) -> Option<(u64, &[u8])>
    ensures { MatchOption result ((number : ℕ) (rest : List ℕ) → number ≤ most → line.now ≢ decimal number ++ 32 ∷ rest) (λ found. (found.0 ≤ most) × (line.now ≡ decimal found.0 ++ 32 ∷ found.1.now)) }
{
    let (number, rest) = read_number(line)?;
    if number > most {
        return None;
    }
    match behind_space(rest) {
        Some(rest) => Some((number, rest)),
        None => None,
    }
}

/// The number up to the first space of a line, and what follows the space; none where that is no number of at most
/// `most`. Most threads and arenas have one digit.
#[inline(always)]
pub(crate) fn read_field(line: &[u8], most: u64) -> Option<(u64, &[u8])>
    ensures { MatchOption result ((number : ℕ) (rest : List ℕ) → number ≤ most → line.now ≢ decimal number ++ 32 ∷ rest) (λ found. (found.0 ≤ most) × (line.now ≡ decimal found.0 ++ 32 ∷ found.1.now)) }
{
    match read_digit_field(line) {
        Some((digit, rest)) => {
            if digit > most {
                return None;
            }
            Some((digit, rest))
        }
        None => read_long_field(line, most),
    }
}

/// The number that a text is as a whole, in decimal, without a sign and without leading zeros; none where it is no
/// number of at most `most`.
#[inline(always)]
pub fn whole_number(text: &[u8], most: u64) -> Option<u64>
    ensures { MatchOption result ((number : ℕ) → number ≤ most → text.now ≢ decimal number) (λ number. (number ≤ most) × (text.now ≡ decimal number)) }
{
    let (number, rest) = read_number(text)?;
    if number > most || rest.len() > 0 {
        return None;
    }
    Some(number)
}
