// One word as the setting of a key.
ghost use Rattle.std.specs.Prelude.{◌≡◌, ◌+◌, ◌*◌, ◌^◌, ◌<◌, option_copied, IsTrue};
ghost use Rattle.std.specs.Option.{SomeIff};
ghost use Rattle.std.specs.Char.{is_ascii_digit, digit_value};
ghost use Rattle.std.specs.Str.Parse.{digits_value};
ghost use Rattle.job_words.specs.Words as by;

use crate::job::WordFault;
use crate::keys::Key;
use crate::name::Name;
use crate::table::{Choice, Kind, Row, Texts};
use std::alloc::Global;

/// The value of a key.
#[derive(Drop)]
pub enum Value {
    Named(Name),
    Chosen(Choice),
}

/// A key and its value.
#[derive(Drop)]
pub struct Setting {
    pub key: Key,
    pub value: Value,
}

// The setting is one of this key.
fn is_of(setting: &Setting, key: Key) -> bool
    ensures { result ≡ by.is_of key setting.now }
{
    setting.key == key
}

/// The value of a key, where it is set.
pub fn value_at(settings: &[Setting], key: Key) -> Option<&Value>
    ensures { option_copied result ≡ by.value_at key settings.now }
{
    let setting = settings.iter().find(|setting| is_of(setting, key))?;
    Some(&setting.value)
}

// The value is this file name.
fn is_name(value: &Value, text: &str) -> bool
    ensures { result ≡ by.is_name text.now value.now }
{
    match value {
        Value::Named(name) => name.as_text() == text,
        Value::Chosen(_) => false,
    }
}

// Some setting has this file name.
fn is_taken(settings: &[Setting], text: &str) -> bool
    ensures { result ≡ by.is_taken text.now settings.now }
{
    settings.iter().any(|setting| is_name(&setting.value, text))
}

// A file name that no earlier word has.
fn read_name(alloc: Global, i: u32, settings: &[Setting], text: &str) -> Result<Value, WordFault>
    ensures { by.AnswersAs (by.name_of i settings.now text.now) result }
{
    if is_taken(settings, text) {
        return Err(WordFault::SameName(i));
    }
    let name = Name::copy(alloc, text)?;
    Ok(Value::Named(name))
}

// The text has no byte but digits.
fn is_number(text: &str) -> bool
    ensures { result ≡ by.is_numeral text.now }
{
    text.as_bytes().iter().all(|b| b.is_ascii_digit())
}

// The number that has one digit more, where it is below 2^64.
fn with_digit(number: u64, digit: u8) -> Option<u64>
    requires { IsTrue (is_ascii_digit digit) }
    ensures { let longer = number * 10 + digit_value digit in
        SomeIff result (longer < 2 ^ 64) longer }
{
    number.checked_mul(10)?.checked_add(u64::from(digit - b'0'))
}

// The number of digits, where it is below 2^64.
fn number_of(digits: &[u8]) -> Option<u64>
    requires { IsTrue (by.is_numeral digits.now) }
    ensures { SomeIff result (digits_value 10 digits.now < 2 ^ 64) (digits_value 10 digits.now) }
{
    let mut number: u64 = 0;
    for digit in digits {
        let Some(longer) = with_digit(number, *digit) else {
            return None;
        };
        number = longer;
    }
    Some(number)
}

// A number between its bounds. One of 2^64 or more is above every bound.
fn read_number(i: u32, least: u64, most: u64, text: &str) -> Result<Value, WordFault>
    ensures { result ≡ by.number_of i (by.lies_within least most) text.now }
{
    if !is_number(text) {
        return Err(WordFault::BadValue(i));
    }
    match number_of(text.as_bytes()) {
        Some(number) if least <= number && number <= most => {
            Ok(Value::Chosen(Choice::Number(number)))
        }
        _ => Err(WordFault::OutOfRange(i)),
    }
}

// One of three numbers.
fn read_one(i: u32, a: u64, b: u64, c: u64, text: &str) -> Result<Value, WordFault>
    ensures { result ≡ by.number_of i (by.is_among a b c) text.now }
{
    if !is_number(text) {
        return Err(WordFault::BadValue(i));
    }
    match number_of(text.as_bytes()) {
        Some(number) if number == a || number == b || number == c => {
            Ok(Value::Chosen(Choice::Number(number)))
        }
        _ => Err(WordFault::OutOfRange(i)),
    }
}

// A text as a value of its kind.
fn read_value(
    alloc: Global,
    i: u32,
    settings: &[Setting],
    kind: Kind,
    text: &str,
) -> Result<Value, WordFault>
    ensures { by.AnswersAs (by.value_of i settings.now kind text.now) result }
{
    match kind {
        Kind::FileName => read_name(alloc, i, settings, text),
        Kind::Within { least, most } => read_number(i, least, most, text),
        Kind::Among(a, b, c) => read_one(i, a, b, c, text),
        Kind::OneOf(texts) => match texts.position(text) {
            Some(n) => Ok(Value::Chosen(Choice::Nth(n))),
            None => Err(WordFault::BadValue(i)),
        },
    }
}

// The key with this text.
fn row_of<'a>(rows: &'a [Row], text: &str) -> Option<&'a Row>
    ensures { option_copied result ≡ by.row_of rows.now text.now }
{
    rows.iter().find(|row| row.key.has_text(text))
}

/// Word number `i` as a setting that comes after others.
pub fn read_setting(
    alloc: Global,
    rows: &[Row],
    i: u32,
    settings: &[Setting],
    word: &str,
) -> Result<Setting, WordFault>
    ensures { by.AnswersAs (by.setting_of rows.now i settings.now word.now) result }
{
    let Some((key, value)) = word.split_once('=') else {
        return Err(WordFault::BadWord(i));
    };
    if key.is_empty() || value.is_empty() {
        return Err(WordFault::BadWord(i));
    }
    let Some(row) = row_of(rows, key) else {
        return Err(WordFault::UnknownKey(i));
    };
    if value_at(settings, row.key).is_some() {
        return Err(WordFault::Repeated(i));
    }
    let value = read_value(alloc, i, settings, row.kind, value)?;
    Ok(Setting {
        key: row.key,
        value,
    })
}
