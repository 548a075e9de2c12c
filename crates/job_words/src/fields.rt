// The values of keys, as the fields of a job take them.
ghost use Rattle.std.specs.Prelude.{◌≡◌, ◌++◌, ◌∷◌, [], IfOk, OnOk};
ghost use Rattle.job_words.specs.Words as by;
ghost use Rattle.job_words.specs.Words.{IsNamed, IsNumeric, IsPosition};
ghost use Rattle.job_words.specs.Names.{HasNames, more_keys, more_names, name_if_set, names_of};
ghost use Rattle.job_words.specs.OutputSize.{HasSize, size_of};
ghost use Rattle.job_words.specs.TurnWords.{HasTurns, turns_of};

use crate::job::Names;
use crate::keys::Key;
use crate::name::{Name, Names16};
use crate::settings::{Setting, Value, value_at};
use crate::table::Choice;
use cells::Size;
use std::alloc::{AllocError, Global};

/// The file name of a key.
pub fn name_at(alloc: Global, settings: &[Setting], key: Key) -> Result<Name, AllocError>
    requires { IsNamed (by.value_at key settings.now) }
    ensures { IfOk result (λ name. name ≡ by.text_of key settings.now) }
{
    let Some(Value::Named(name)) = value_at(settings, key) else {
        unreachable!();
    };
    Name::copy(alloc, name.as_text())
}

/// The file names of two keys.
pub fn two_names_at(
    alloc: Global,
    settings: &[Setting],
    first: Key,
    second: Key,
) -> Result<(Name, Name), AllocError>
    requires first { IsNamed (by.value_at first settings.now) }
    requires second { IsNamed (by.value_at second settings.now) }
    ensures { IfOk result (λ names.
        names ≡ (by.text_of first settings.now, by.text_of second settings.now)) }
{
    let name = name_at(alloc, settings, first)?;
    Ok((name, name_at(alloc, settings, second)?))
}

/// The number of a key whose value is of a kind of numbers.
pub fn number_at(settings: &[Setting], key: Key) -> u64
    requires { IsNumeric (by.value_at key settings.now) }
    ensures { result ≡ by.number_at key settings.now }
{
    let Some(Value::Chosen(Choice::Number(number))) = value_at(settings, key) else {
        unreachable!();
    };
    *number
}

/// The output's size in cells.
pub fn size_at(settings: &[Setting]) -> Size
    requires { HasSize settings.now }
    ensures { result ≡ size_of settings.now }
{
    Size {
        w: number_at(settings, Key::Width) as u32,
        h: number_at(settings, Key::Height) as u32,
        f: number_at(settings, Key::Frames) as u32,
    }
}

/// The position of the text of a key in its list.
pub fn nth_at(settings: &[Setting], key: Key) -> usize
    requires { IsPosition (by.value_at key settings.now) }
    ensures { result ≡ by.nth_at key settings.now }
{
    let Some(Value::Chosen(Choice::Nth(n))) = value_at(settings, key) else {
        unreachable!();
    };
    *n
}

/// Whether the samples are turned: the list of texts has `none`, and then `all`.
pub fn turns_at(settings: &[Setting]) -> bool
    requires { HasTurns settings.now }
    ensures { result ≡ turns_of settings.now }
{
    nth_at(settings, Key::Turns) == 1
}

const MORE_KEYS: [Key; 15] = [
    Key::More(2),
    Key::More(3),
    Key::More(4),
    Key::More(5),
    Key::More(6),
    Key::More(7),
    Key::More(8),
    Key::More(9),
    Key::More(10),
    Key::More(11),
    Key::More(12),
    Key::More(13),
    Key::More(14),
    Key::More(15),
    Key::More(16),
];

// The keys of further samples.
fn more_keys() -> &'static [Key]
    ensures { result.now ≡ more_keys }
{
    &MORE_KEYS
}

// The file name of a key, where one is set.
fn name_if_set(alloc: Global, settings: &[Setting], key: Key) -> Result<Option<Name>, AllocError>
    ensures { IfOk result (λ name. name ≡ name_if_set settings.now key) }
{
    match value_at(settings, key) {
        Some(Value::Named(name)) => Ok(Some(Name::copy(alloc, name.as_text())?)),
        _ => Ok(None),
    }
}

fn add_name(names: &mut Vec<Name>, name: Name) -> Result<(), AllocError>
    ensures { OnOk result (names.new.items ≡ names.old.items ++ name ∷ []) }
{
    names.push(name)?;
    Ok(())
}

/// The file names of the further samples.
pub fn more_at(alloc: Global, settings: &[Setting]) -> Result<Names16, AllocError>
    ensures { IfOk result (λ names. names ≡ more_names settings.now) }
{
    let mut names = Vec::new(alloc);
    let keys = more_keys();
    for key in keys {
        if let Some(name) = name_if_set(alloc, settings, *key)? {
            add_name(&mut names, name)?;
        }
    }
    Ok(Names16::from_vec(names))
}

/// The file names of a run.
pub fn names_at(alloc: Global, settings: &[Setting]) -> Result<Names, AllocError>
    requires { HasNames settings.now }
    ensures { IfOk result (λ names. names ≡ names_of settings.now) }
{
    let (sample, out) = two_names_at(alloc, settings, Key::Sample, Key::Out)?;
    let (map, record_file) = two_names_at(alloc, settings, Key::Map, Key::Record)?;
    Ok(Names {
        sample,
        more: more_at(alloc, settings)?,
        out,
        map,
        record_file,
    })
}
