ghost use Rattle.std.specs.Prelude.{◌≡◌};
ghost use Rattle.cstar_words.specs.Numbers.{number_in};

/// The number that one or more decimal digits write, where it lies between the two bounds. No
/// other spelling is a number, a sign among them; leading zeros are.
pub fn number(text: &str, low: u32, high: u32) -> Option<u32>
    ensures { result ≡ number_in low high text.now }
{
    if text.as_bytes().first() == Some(&b'+') {
        return None;
    }
    let Ok(value) = text.parse::<u32>() else {
        return None;
    };
    if low <= value && value <= high {
        Some(value)
    } else {
        None
    }
}
