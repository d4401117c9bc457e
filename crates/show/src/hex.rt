// Octets spelt out as hexadecimal digits, two to an octet.

fn octet(digits: &[u8]) -> Option<u8> {
    let [high, low] = digits else {
        return None;
    };
    let high = char::from(*high).to_digit(16)?;
    let low = char::from(*low).to_digit(16)?;
    u8::try_from(16 * high + low).ok()
}

// In memory that is lent for them. None where one of them is no digit, or has none beside it, or there are too many.
pub fn octets<'a>(digits: &[u8], space: &'a mut [u8]) -> Option<&'a [u8]> {
    let mut n = 0;
    for pair in digits.chunks(2) {
        *space.get_mut(n)? = octet(pair)?;
        n += 1;
    }
    space.get(..n)
}
