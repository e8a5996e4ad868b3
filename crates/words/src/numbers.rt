//! The numbers among the words.
ghost use Rattle.std.specs.Prelude.{◌≡◌};
ghost use Rattle.std.specs.Char.{is_ascii_digit};
ghost use Rattle.std.specs.List.{list_all};
ghost use Rattle.words.specs.Numbers as spec;

/// The most digits of a number.
const MAX_DIGITS: usize = 19;

fn has_digits(text: &str) -> bool
    ensures { result ≡ list_all is_ascii_digit text.now }
{
    text.as_bytes().iter().all(|byte| byte.is_ascii_digit())
}

fn is_number(text: &str) -> bool
    ensures { result ≡ spec.is_number text.now }
{
    has_digits(text) && !text.is_empty() && text.len() <= MAX_DIGITS
}

/// The number that 1 to 19 digits are.
pub fn number_of(text: &str) -> Option<u64>
    ensures { result ≡ spec.number_of text.now }
{
    if !is_number(text) {
        return None;
    }
    match text.parse::<u64>() {
        Ok(number) => Some(number),
        Err(_) => None,
    }
}

/// The number that the text is, where it is one of these.
pub fn number_between(text: &str, least: u32, most: u32) -> Option<u32>
    ensures { result ≡ spec.number_between text.now least most }
{
    match number_of(text) {
        Some(number) => {
            if u64::from(least) <= number && number <= u64::from(most) {
                Some(number as u32)
            } else {
                None
            }
        }
        None => None,
    }
}
