use crate::characters::is_noncharacter;

/// What stands after the `#` of a numeric character reference.
#[derive(Clone, Copy)]
pub(crate) struct Number {
    /// The value of the digits, without what passes 32 bits.
    pub(crate) code: u32,
    is_too_large: bool,
    /// Whether there is a digit.
    pub(crate) has_digits: bool,
    /// The character after them, or `None` at the end of the text.
    pub(crate) trailing: Option<char>,
}

impl Number {
    /// Reads a number in decimal digits, or after `x` or `X` in hexadecimal ones.
    pub(crate) fn read(text: &str) -> Number {
        match text.strip_prefix('x').or(text.strip_prefix('X')) {
            Some(digits) => Number::of_digits(16, digits),
            None => Number::of_digits(10, text),
        }
    }

    fn of_digits(radix: u32, text: &str) -> Number {
        let mut number = Number {
            code: 0,
            is_too_large: false,
            has_digits: false,
            trailing: None,
        };
        for c in text.chars() {
            match c.to_digit(16) {
                Some(digit) if digit < radix => number.push(radix, digit),
                _ => {
                    number.trailing = Some(c);
                    break;
                }
            }
        }
        number
    }

    fn push(&mut self, radix: u32, digit: u32) {
        let shifted = self.code.wrapping_mul(radix);
        self.is_too_large |= shifted > 0x10ffff;
        self.code = shifted.wrapping_add(digit);
        self.has_digits = true;
    }

    /// Whether the number stands for a character that may be written so.
    pub(crate) fn is_valid(self) -> bool {
        let is_character = !self.is_too_large && char::from_u32(self.code).is_some();
        let is_special = self.code == 0 || self.code == 0x0d || is_noncharacter(self.code);
        is_character && !is_special
    }
}
