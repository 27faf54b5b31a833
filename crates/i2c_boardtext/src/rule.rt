//! The rules of keys: whether a key is required, and how its value is tested.
ghost use Rattle.std.specs.Prelude.{◌≡◌, map, bytes_eq, string_bytes};
ghost use Rattle.std.specs.List.{list_all, list_any};
ghost use Rattle.std.specs.BTreeMap.{keys};
ghost use Rattle.toml.specs.View.{table_view};
ghost use Rattle.i2c_boardtext.specs.Rules.{key_rule, needs, may_have, is_listed, are_listed, is_there, is_fit, table_fault};

use crate::fault::TableFault;
use crate::find::find;
use crate::fits::fits_if_there;
use toml::Table;

/// How a value is tested.
#[derive(Clone, Copy)]
pub enum Test {
    /// The kind, which is read before the other keys: it is known here.
    Kind,
    /// An integer from the first number to the second.
    Range(u32, u32),
    /// True or false.
    Flag,
    /// `"all"` or `"smbus"`.
    Offers,
    /// `"parent"` or `"mux"`.
    Lock,
    /// `"disconnect"` or `"as-is"`.
    Idle,
    /// An array of runs, each of them within a memory of so many bytes.
    Runs(u32),
    /// An array of tables.
    Tables,
    /// An array of at least one pair of integers, each from the first number to the second.
    Pairs(u32, u32),
}

/// A key of a table: its name, whether it is required, and how its value is tested.
#[derive(Clone, Copy, Drop)]
pub struct Rule {
    pub name: &'static str,
    pub needed: bool,
    pub test: Test,
}

/// A key that the table has to say.
pub fn needs(name: &'static str, test: Test) -> Rule
    ensures { key_rule result ≡ needs name.now test }
{
    Rule {
        name,
        needed: true,
        test,
    }
}

/// A key that the table needn't say.
pub fn may_have(name: &'static str, test: Test) -> Rule
    ensures { key_rule result ≡ may_have name.now test }
{
    Rule {
        name,
        needed: false,
        test,
    }
}

/// The blank of an unused place.
impl Default for Rule {
    fn default() -> Self {
        Rule {
            name: "",
            needed: false,
            test: Test::Kind,
        }
    }
}

// Some rule is for the key.
fn some_is_for(rules: &[Rule], key: &str) -> bool
    ensures { result ≡ list_any (λ r. bytes_eq key.now (key_rule r).name) rules.now }
{
    rules.iter().any(|rule| key == rule.name)
}

fn is_listed(rules: &[Rule], key: &str) -> bool
    ensures { result ≡ is_listed (map key_rule rules.now) key.now }
{
    some_is_for(rules, key)
}

// Every key of the table is listed.
fn each_is_listed(table: &Table, rules: &[Rule]) -> bool
    ensures { result ≡ list_all (λ k. is_listed (map key_rule rules.now) (string_bytes k)) (keys table.now) }
{
    table.keys().all(|key| is_listed(rules, key.as_str()))
}

fn are_listed(table: &Table, rules: &[Rule]) -> bool
    ensures { result ≡ are_listed (map key_rule rules.now) (table_view table.now) }
{
    each_is_listed(table, rules)
}

// The key of each rule is there, or needn't be.
fn is_there(table: &Table, rule: &Rule) -> bool
    ensures { result ≡ is_there (table_view table.now) (key_rule rule.now) }
{
    !rule.needed || find(table, rule.name).is_some()
}

fn each_is_there(table: &Table, rules: &[Rule]) -> bool
    ensures { result ≡ list_all (λ r. is_there (table_view table.now) (key_rule r)) rules.now }
{
    rules.iter().all(|rule| is_there(table, rule))
}

fn are_there(table: &Table, rules: &[Rule]) -> bool
    ensures { result ≡ list_all (is_there (table_view table.now)) (map key_rule rules.now) }
{
    each_is_there(table, rules)
}

// The value at the key of each rule is as listed, or missing.
fn is_fit(table: &Table, rule: &Rule) -> bool
    ensures { result ≡ is_fit (table_view table.now) (key_rule rule.now) }
{
    fits_if_there(rule.test, find(table, rule.name))
}

fn each_is_fit(table: &Table, rules: &[Rule]) -> bool
    ensures { result ≡ list_all (λ r. is_fit (table_view table.now) (key_rule r)) rules.now }
{
    rules.iter().all(|rule| is_fit(table, rule))
}

fn are_fit(table: &Table, rules: &[Rule]) -> bool
    ensures { result ≡ list_all (is_fit (table_view table.now)) (map key_rule rules.now) }
{
    each_is_fit(table, rules)
}

/// What is wrong with a table: a key, or else a value.
pub fn table_fault(table: &Table, rules: &[Rule]) -> Option<TableFault>
    ensures { result ≡ table_fault (map key_rule rules.now) (table_view table.now) }
{
    if !(are_listed(table, rules) && are_there(table, rules)) {
        Some(TableFault::Key)
    } else if !are_fit(table, rules) {
        Some(TableFault::Value)
    } else {
        None
    }
}
