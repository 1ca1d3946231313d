//! Names of streams.

ghost use Rattle.std.specs.Prelude.{◌≡◌, false, IfOk, string_bytes};
ghost use Rattle.std.specs.List.{list_all};
ghost use Rattle.cc_script.specs.Outcome.{Gives};
ghost use Rattle.cc_script.specs.Words.{name_of_word, is_name_byte};
ghost use Rattle.cc_script.specs.declared.fault.LineFault.TheVariants as faults;

use crate::fault::LineFault;
use crate::word::{is_name, is_name_byte};
use std::alloc::Global;
use std::marker::Model;

/// A name: a lower-case letter, then up to 15 lower-case letters or digits.
#[derive(Drop)]
pub struct Name {
    text: String,
}

impl Model for Name {
    ghost use Rattle.std.specs.Prelude.{List, ℕ, string_bytes};

    ghost Value = { List ℕ };

    ghost view = { λ n. string_bytes n.text };
}

impl Name {
    #[tactic(auto, unfolding(crate::specs::Words::name_of_word))]
    pub(crate) fn of(alloc: Global, word: &[u8]) -> Result<Name, LineFault>
        ensures { Gives (name_of_word word.now) result }
    {
        if !is_name(word) {
            return Err(LineFault::Syntax);
        }
        let text = text_of(alloc, word)?;
        Ok(Name { text })
    }

    /// The name as text.
    pub fn as_str(&self) -> &str
        ensures { result.now ≡ self.now }
    {
        self.text.as_str()
    }

    /// The bytes of the name.
    pub fn as_bytes(&self) -> &[u8]
        ensures { result.now ≡ self.now }
    {
        self.text.as_bytes()
    }
}

// The text of a name's bytes.
fn text_of(alloc: Global, word: &[u8]) -> Result<String, LineFault>
    ensures ok { IfOk result (λ text. string_bytes text ≡ word.now) }
    ensures syntax { result ≡ Err faults.Syntax → list_all is_name_byte word.now ≡ false }
{
    let mut text = String::new(alloc);
    for &byte in word {
        if !is_name_byte(byte) {
            return Err(LineFault::Syntax);
        }
        text.push(char::from(byte))
            .map_err(|_| LineFault::NoMemory)?;
    }
    Ok(text)
}
