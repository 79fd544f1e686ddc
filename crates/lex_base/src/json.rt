ghost use Rattle.std.specs.Prelude.{◌≡◌, ◌⊎◌, Err, IfErr, IfOk, IfSome, None, Ok, Option, Some, chars, option_and_then};
ghost use Rattle.std.specs.Prelude.{option_map, string_bytes};
ghost use Rattle.std.specs.Str.{IsUtf8};
ghost use Rattle.serde_json.specs.Find.{as_number, as_u64};
ghost use Rattle.serde_json.specs.Read as serde;
ghost use Rattle.serde_json.specs.View.{view, items_view};
ghost use Rattle.lex_base.specs.Json.{name_in, value_in, value_if, whole_numbers, table_of_json};
ghost use Rattle.lex_base.specs.Shown.{shown_if};

use crate::table::{ReferenceTable, is_name};
use crate::table_error::TableError;
use crate::text::Text;
use serde_json::Value;
use std::alloc::{AllocError, Global};

impl ReferenceTable {
    /// The table of a JSON text in the form in which the standard publishes it (WHATWG HTML, 13.5): an object
    /// whose keys are `&` and a name, and whose values are objects with `codepoints`, an array of one or
    /// two whole numbers. What else an object has, as `characters`, isn't looked at.
    ///
    /// `NotJson` is a text that `serde_json` doesn't read, `NotAnObject` another value; then the first
    /// faulty key in byte order is answered as `BadName` or else `BadCodePoints`, with the key; or `Memory`.
    pub fn from_json(alloc: Global, text: &str) -> Result<ReferenceTable, TableError>
        ensures ok { IfOk result (λ table. table_of_json text.now ≡ Ok table) }
        ensures err { IfErr result (λ e. (e ≡ TableError.Memory) ⊎ (table_of_json text.now ≡ Err e)) }
    {
        let json = read(alloc, text)?;
        let Some(members) = json.as_object() else {
            return Err(TableError::NotAnObject);
        };
        let mut table = ReferenceTable::empty(alloc);
        'members: for (key, value) in members {
            let key = key.as_str();
            let name = name_in(alloc, key)?;
            let value = value_in(alloc, key, value)?;
            table.insert(name, value.as_str())?;
        }
        Ok(table)
    }
}

// The value of a JSON text.
fn read(alloc: Global, text: &str) -> Result<Value, TableError>
    ensures ok { IfOk result (λ json. serde.read text.now ≡ Some (view json)) }
    ensures err { IfErr result
        (λ e. (e ≡ TableError.Memory) ⊎ ((serde.read text.now ≡ None) × (e ≡ TableError.NotJson))) }
{
    match Value::from_str(alloc, text) {
        Ok(json) => Ok(json),
        Err(e) if e.is_memory() => Err(TableError::Memory),
        Err(_) => Err(TableError::NotJson),
    }
}

// The name in a key.
fn name_in<'k>(alloc: Global, key: &'k str) -> Result<&'k str, TableError>
    ensures ok { IfOk result (λ name. name_in (chars key.now) ≡ Some (chars name.now)) }
    ensures text { IfOk result (λ name. IsUtf8 name.now) }
    ensures err { IfErr result
        (λ e. (e ≡ TableError.Memory) ⊎ ((name_in (chars key.now) ≡ None) × (e ≡ TableError.BadName (chars key.now)))) }
{
    match name_of(key) {
        Some(name) => Ok(name),
        None => Err(TableError::BadName(Text::from_str(alloc, key)?)),
    }
}

// What follows the `&` of a key, where it is a name.
fn name_of(key: &str) -> Option<&str>
    ensures name { option_map (λ name. chars name.now) result ≡ name_in (chars key.now) }
    ensures text { IfSome result (λ name. IsUtf8 name.now) }
{
    let name = key.strip_prefix('&')?;
    if is_name(name) { Some(name) } else { None }
}

// The characters that the value of a key names.
fn value_in(alloc: Global, key: &str, value: &Value) -> Result<String, TableError>
    ensures ok { IfOk result (λ text. value_in (view value.now) ≡ Some (chars (string_bytes text))) }
    ensures err { IfErr result
        (λ e. (e ≡ TableError.Memory)
        ⊎ ((value_in (view value.now) ≡ None) × (e ≡ TableError.BadCodePoints (chars key.now)))) }
{
    match value_of(alloc, value)? {
        Some(text) => Ok(text),
        None => Err(TableError::BadCodePoints(Text::from_str(alloc, key)?)),
    }
}

// The characters in `codepoints`, where they are a value.
fn value_of(alloc: Global, value: &Value) -> Result<Option<String>, AllocError>
    ensures { IfOk result
        (λ text. option_map (λ s. chars (string_bytes s)) text ≡ value_in (view value.now)) }
{
    match value.get("codepoints").and_then(Value::as_array) {
        Some(numbers) => text_of(alloc, numbers.as_slice()),
        None => Ok(None),
    }
}

// The text of one or two characters given as numbers.
fn text_of(alloc: Global, numbers: &[Value]) -> Result<Option<String>, AllocError>
    ensures { IfOk result
        (λ text. option_map (λ s. chars (string_bytes s)) text
        ≡ option_and_then value_if (whole_numbers (items_view numbers.now))) }
{
    if numbers.is_empty() || numbers.len() > 2 {
        return Ok(None);
    }
    let mut text = String::new(alloc);
    'numbers: for number in numbers {
        let Some(c) = character_of(number) else {
            return Ok(None);
        };
        text.push(c)?;
    }
    Ok(Some(text))
}

// The character of a number, other than NUL.
fn character_of(number: &Value) -> Option<char>
    ensures { result
        ≡ option_and_then shown_if (option_and_then as_u64 (as_number (view number.now))) }
{
    let code = u32::try_from(number.as_u64()?).ok()?;
    if code == 0 {
        return None;
    }
    char::from_u32(code)
}
