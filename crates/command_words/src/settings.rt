// Settings of named constants.

ghost use Rattle.std.specs.Prelude.{◌≡◌, ◌++◌, ◌+◌, None, take, map, length, option_map, IfOk, IfErr};
ghost use Rattle.std.specs.Char.{is_ascii_alphanumeric, to_ascii_uppercase};
ghost use Rattle.std.specs.List.{list_all};
ghost use Rattle.clap.specs.Walk.{texts};
ghost use Rattle.f77_source.specs.Sources.{setting_of};
ghost use Rattle.command_words.specs.Settings.{is_name as names, value_of, setting_at, settings_in, first_fault_from, IsSettingFault};
ghost use Rattle.command_words.specs.declared.settings.SettingFault.TheVariants.{NoMemory};

use f77_source::Setting;
use std::alloc::{AllocError, AllocFailed, Global};

/// Why words are no settings.
#[derive(Clone, Copy, Debug, PartialEq, Eq)]
pub enum SettingFault {
    /// The first word, by its number from 1, that is none.
    Word(usize),
    /// Memory ran out.
    NoMemory,
}

impl From<AllocError> for SettingFault {
    ghost from_gives = { λ _ fault. fault ≡ NoMemory };

    fn from(_error: AllocError) -> SettingFault {
        SettingFault::NoMemory
    }
}

impl<T: Drop> From<AllocFailed<T>> for SettingFault {
    ghost from_gives = { λ _ fault. fault ≡ NoMemory };

    fn from(_failed: AllocFailed<T>) -> SettingFault {
        SettingFault::NoMemory
    }
}

/// The settings that words write: a letter and letters or digits, `=`, an optional minus sign and
/// digits, of a value within 64 bits. The letters of a name count as capitals.
///
/// # Errors
///
/// `Word` exactly where a word is of another form; `NoMemory` may stand in place of any answer.
pub fn read_settings(alloc: Global, words: &[&str]) -> Result<Vec<Setting>, SettingFault>
    ensures read { IfOk result (λ settings. (first_fault_from 1 (texts words.now) ≡ None)
        × (map setting_of settings.items ≡ settings_in (texts words.now))) }
    ensures refused { IfErr result (IsSettingFault (texts words.now)) }
{
    let mut settings = Vec::new(alloc);
    for (place, word) in words.iter().enumerate() {
        match setting_in(alloc, word)? {
            Some(setting) => settings.push(setting)?,
            None => return Err(SettingFault::Word(place + 1)),
        }
    }
    Ok(settings)
}

pub(crate) fn setting_in(alloc: Global, word: &str) -> Result<Option<Setting>, AllocError>
    ensures { IfOk result (λ setting. option_map setting_of setting ≡ setting_at word.now) }
{
    let Some((name, value)) = word.split_once('=') else {
        return Ok(None);
    };
    if !is_name(name.as_bytes()) {
        return Ok(None);
    }
    match value_in(value) {
        Some(value) => Ok(Some(Setting {
            name: capitals(alloc, name.as_bytes())?,
            value,
        })),
        None => Ok(None),
    }
}

fn is_name(name: &[u8]) -> bool
    ensures { result ≡ names name.now }
{
    match name.split_first() {
        Some((first, rest)) => first.is_ascii_alphabetic() && are_alphanumeric(rest),
        None => false,
    }
}

fn are_alphanumeric(bytes: &[u8]) -> bool
    ensures { result ≡ list_all is_ascii_alphanumeric bytes.now }
{
    bytes.iter().all(|c| c.is_ascii_alphanumeric())
}

fn capitals(alloc: Global, name: &[u8]) -> Result<Vec<u8>, AllocError>
    ensures { IfOk result (λ capitals. capitals.items ≡ map to_ascii_uppercase name.now) }
{
    name.iter()
        .map(|byte| byte.to_ascii_uppercase())
        .collect(alloc)
}

pub(crate) fn value_in(word: &str) -> Option<i64>
    ensures { result ≡ value_of word.now }
{
    // `parse` takes a plus sign
    if word.starts_with('+') {
        None
    } else {
        word.parse::<i64>().ok()
    }
}
