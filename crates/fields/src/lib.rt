// The fields of a line: numbers and literals. A place is an index into a text that ends with byte 10, so a byte that is not 10 has a
// byte behind it, and no length is tested. A text and a place are two parameters: each function answers the place behind what it reads, so a
// struct of both would be made anew at every field, and a slice from the place on loses the place, by which `list` tells that a line holds byte
// 65,536.
#![tactic(auto)]

ghost use Rattle.std.specs.Prelude.{◌≡◌, true};
ghost use Rattle.semantics.specs.Text.{is_number, is_literal};
ghost use Rattle.fields.specs.Cursor.{class_of, field_at, InText, DigitAs, FirstDigit, Digits, DigitsAt, NumberTo, SignIs, LiteralAt, CodeTo, number_before};

// The value of a digit; none for another byte. The difference to byte 48, which is `0`, wraps for a byte below it.
fn digit(b: u8) -> Option<u32>
    ensures { DigitAs b result }
{
    let value = (b as u32).wrapping_sub(48);
    match value {
        0..=9 => Some(value),
        _ => None,
    }
}

// What is read: a value, and the place where its digits end, or a place behind it.
#[derive(Clone, Copy)]
pub struct Token {
    pub value: u16,
    pub end: usize,
}

// The digits of a number from its first on, whose value is `first`. A number that begins with `0` has no other.
fn digits_from(bytes: &[u8], at: usize, first: u32) -> Token
    requires { FirstDigit bytes.now at first }
    ensures { Digits bytes.now at result.value result.end }
{
    let Some(b) = digit(bytes[at + 1]) else {
        return Token {
            value: first as u16,
            end: at + 1,
        };
    };
    let Some(c) = digit(bytes[at + 2]) else {
        return Token {
            value: (first * 10 + b) as u16,
            end: at + 2,
        };
    };
    Token {
        value: ((first * 10 + b) * 10 + c) as u16,
        end: at + 3,
    }
}

// The digits of a number, which has no leading zero, and the place behind them. Whether the field ends there is for the caller to see.
fn digits(bytes: &[u8], at: usize) -> Option<Token>
    requires { InText bytes.now at }
    ensures { DigitsAt bytes.now at result }
{
    let first = digit(bytes[at])?;
    if first == 0 {
        return Some(Token {
            value: 0,
            end: at + 1,
        });
    }
    Some(digits_from(bytes, at, first))
}

// The number that is the whole field at a place and ends at `mark`, a comma or byte 10, and the place behind that byte.
pub fn number_before(bytes: &[u8], at: usize, mark: u8) -> Option<Token>
    requires { InText bytes.now at × (class_of mark ≡ 10) }
    ensures { result ≡ number_before bytes.now at mark }
{
    let number = digits(bytes, at)?;
    if bytes[number.end] == mark {
        return Some(Token {
            value: number.value,
            end: number.end + 1,
        });
    }
    None
}

// 1 for the sign of a negation, 0 for any other byte.
fn sign(b: u8) -> usize
    ensures { SignIs b result }
{
    usize::from(b == b'!')
}

// The condition of the literal at a place, and the place behind its digits. Whether the field ends there is for the caller to see.
pub fn read_literal(bytes: &[u8], at: usize) -> Option<Token>
    requires { InText bytes.now at }
    ensures { LiteralAt bytes.now at result }
{
    let negated = sign(bytes[at]);
    digits(bytes, at + negated)
}

// The number that is the field at a place, where the field is known to be one.
pub fn checked_number(bytes: &[u8], at: usize) -> Token
    requires { InText bytes.now at × (is_number (field_at bytes.now at) ≡ true) }
    ensures { NumberTo bytes.now at result.value result.end }
{
    let first = bytes[at] as u32 - 48;
    digits_from(bytes, at, first)
}

// The code of the literal that is the field at a place, where the field is known to be one.
pub fn checked_literal(bytes: &[u8], at: usize) -> Token
    requires { InText bytes.now at × (is_literal (field_at bytes.now at) ≡ true) }
    ensures { CodeTo bytes.now at result.value result.end }
{
    let negated = sign(bytes[at]);
    let number = checked_number(bytes, at + negated);
    Token {
        value: 2 * number.value + negated as u16,
        end: number.end,
    }
}
