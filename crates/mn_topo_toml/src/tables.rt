//! What the readers take from a table of a TOML document.
ghost use Rattle.std.specs.Prelude.{◌≡◌, ◌≤◌, ◌<◌, option_map, option_copied, is_some, IfSome, not, string_bytes, length};
ghost use Rattle.std.specs.BTreeMap.{keys};
ghost use Rattle.std.specs.List.{list_all, list_any};
ghost use Rattle.std.specs.Str.{bytes_eq};
ghost use Rattle.toml.specs.Data.{get_member};
ghost use Rattle.toml.specs.View.{view, table_view, items_view};
ghost use Rattle.mn_topo.specs.Tables.{is_name_byte, is_name};
ghost use Rattle.mn_topo_toml.specs.Names.{named_at};
ghost use Rattle.mn_topo_toml.specs.Tables.{texts_now, has_unknown_key, lacks, text_at, number_in, number_at, is_integer_at, boolean_at, array_at, are_tables, is_tables_at, tables_of, tables_at, are_texts, is_texts_at, items_at};

use mn_topo::Names;
use toml::{Table, Value};

fn is_among(known: &[&str], key: &str) -> bool
    ensures { result ≡ list_any (λ k. bytes_eq key.now k.now) known.now }
{
    known.iter().any(|k| key == *k)
}

fn finds_unknown(known: &[&str], table: &Table) -> bool
    ensures { result ≡ list_any (λ k. not (list_any (λ y. bytes_eq (string_bytes k) y.now) known.now)) (keys table.now) }
{
    table.keys().any(|key| !is_among(known, key.as_str()))
}

/// Whether the table has a key that isn't one of these.
pub(crate) fn has_unknown_key(known: &[&str], table: &Table) -> bool
    ensures { result ≡ has_unknown_key (texts_now known.now) (table_view table.now) }
{
    finds_unknown(known, table)
}

fn value_at<'a>(key: &str, table: &'a Table) -> Option<&'a Value>
    ensures { option_map (λ v. view v.now) result ≡ get_member key.now (table_view table.now) }
{
    table.get(key)
}

/// Whether nothing is at the key.
pub(crate) fn lacks(key: &str, table: &Table) -> bool
    ensures { result ≡ lacks key.now (table_view table.now) }
{
    value_at(key, table).is_none()
}

/// The text at the key.
pub(crate) fn text_at<'a>(key: &str, table: &'a Table) -> Option<&'a str>
    ensures { option_copied result ≡ text_at key.now (table_view table.now) }
{
    match value_at(key, table) {
        Some(value) => value.as_str(),
        None => None,
    }
}

/// The number of the name at the key.
pub(crate) fn named_at(names: &Names, key: &str, entry: &Table) -> Option<u16>
    ensures value { result ≡ named_at names.now key.now (table_view entry.now) }
    ensures within { IfSome result (λ n. n < length names.now) }
{
    match text_at(key, entry) {
        Some(name) => names.number_of(name.as_bytes()),
        None => None,
    }
}

fn number_in(low: u32, high: u32, integer: Option<i64>) -> Option<u32>
    ensures value { result ≡ number_in low high integer }
    ensures most { IfSome result (λ n. n ≤ high) }
{
    match integer {
        Some(n) if n >= i64::from(low) && n <= i64::from(high) => Some(n as u32),
        _ => None,
    }
}

/// The number at the key, `default` where nothing is there, and `None` where it isn't an integer from `low`
/// to `high`.
pub(crate) fn number_at(key: &str, low: u32, high: u32, default: u32, table: &Table) -> Option<u32>
    requires { default ≤ high }
    ensures value { result ≡ number_at key.now low high default (table_view table.now) }
    ensures most { IfSome result (λ n. n ≤ high) }
{
    match value_at(key, table) {
        Some(value) => number_in(low, high, value.as_integer()),
        None => Some(default),
    }
}

/// Whether nothing is at the key, or an integer.
pub(crate) fn is_integer_at(key: &str, table: &Table) -> bool
    ensures { result ≡ is_integer_at key.now (table_view table.now) }
{
    match value_at(key, table) {
        Some(value) => value.is_integer(),
        None => true,
    }
}

/// The boolean at the key, false where nothing is there, and `None` where it isn't a boolean.
pub(crate) fn boolean_at(key: &str, table: &Table) -> Option<bool>
    ensures { result ≡ boolean_at key.now (table_view table.now) }
{
    match value_at(key, table) {
        Some(value) => value.as_bool(),
        None => Some(false),
    }
}

/// The array at the key, empty where nothing is there, and `None` where it is no array.
pub(crate) fn array_at<'a>(key: &str, table: &'a Table) -> Option<&'a [Value]>
    ensures { option_map (λ vs. items_view vs.now) result ≡ array_at key.now (table_view table.now) }
{
    let Some(value) = value_at(key, table) else {
        return Some(&[]);
    };
    match value.as_array() {
        Some(values) => Some(values.as_slice()),
        None => None,
    }
}

fn are_tables(values: &[Value]) -> bool
    ensures { result ≡ are_tables (items_view values.now) }
{
    for value in values {
        if !value.is_table() {
            return false;
        }
    }
    true
}

/// The array of tables at the key, empty where nothing is there, and `None` where it is no such array.
#[tactic(auto, using(crate::proofs::Keys::count_tables))]
pub(crate) fn tables_at<'a>(key: &str, table: &'a Table) -> Option<&'a [Value]>
    ensures kind { is_some result ≡ is_tables_at key.now (table_view table.now) }
    ensures tables { IfSome result (λ vs. tables_of (items_view vs.now) ≡ tables_at key.now (table_view table.now)) }
    ensures count { IfSome result (λ vs. length vs.now ≡ length (tables_at key.now (table_view table.now))) }
{
    match array_at(key, table) {
        Some(values) if are_tables(values) => Some(values),
        _ => None,
    }
}

fn are_texts(values: &[Value]) -> bool
    ensures { result ≡ are_texts (items_view values.now) }
{
    for value in values {
        if !value.is_str() {
            return false;
        }
    }
    true
}

/// The array of texts at the key, empty where nothing is there, and `None` where it is no such array.
pub(crate) fn texts_at<'a>(key: &str, table: &'a Table) -> Option<&'a [Value]>
    ensures kind { is_some result ≡ is_texts_at key.now (table_view table.now) }
    ensures items { IfSome result (λ vs. items_view vs.now ≡ items_at key.now (table_view table.now)) }
{
    match array_at(key, table) {
        Some(values) if are_texts(values) => Some(values),
        _ => None,
    }
}

fn is_name_byte(byte: u8) -> bool
    ensures { result ≡ is_name_byte byte }
{
    byte.is_ascii_alphanumeric() || byte == b'-' || byte == b'.' || byte == b'_'
}

fn has_name_bytes(word: &[u8]) -> bool
    ensures { result ≡ list_all is_name_byte word.now }
{
    word.iter().all(|byte| is_name_byte(*byte))
}

/// Whether the word is 1 to 32 ASCII letters, digits, `-`, `.` and `_`.
pub(crate) fn is_name(word: &[u8]) -> bool
    ensures { result ≡ is_name word.now }
{
    1 <= word.len() && word.len() <= 32 && has_name_bytes(word)
}
