//! The words of a command.

ghost use Rattle.std.specs.Prelude.{◌≡◌, ◌++◌, IfOk, OnOk, string_bytes, true};
ghost use Rattle.std.specs.List.{list_all};
ghost use Rattle.std.specs.Str.{is_utf8};
ghost use Rattle.bz_label.specs.Words as spec;
ghost use Rattle.bz_label.specs.private.WordSteps.{kept};

use crate::list::Text;
use crate::parts::cut;
use bz_memory::{NoMemory, push, push_char, push_str};
use std::alloc::Global;

/// Splits a text into words at runs of spaces. A space after a backslash is a part of the word.
pub fn read_words(alloc: Global, text: &str) -> Result<Vec<Text>, NoMemory>
    ensures words { IfOk result (λ words. words.items ≡ spec.words_of text.now) }
    ensures utf8 { IfOk result (λ words. list_all is_utf8 words.items ≡ true) }
{
    let mut words = Vec::new(alloc);
    let mut word = String::new(alloc);
    let mut left = text;
    while let Some((part, rest)) = cut(left, ' ') {
        match part.strip_suffix("\\") {
            Some(front) => {
                push_str(&mut word, front)?;
                push_char(&mut word, ' ')?;
            }
            None => {
                push_str(&mut word, part)?;
                keep(&mut words, word)?;
                word = String::new(alloc);
            }
        }
        left = rest;
    }
    push_str(&mut word, left)?;
    keep(&mut words, word)?;
    Ok(words)
}

fn keep(words: &mut Vec<Text>, word: String) -> Result<(), NoMemory>
    ensures { OnOk result (words.new.items ≡ words.old.items ++ kept (string_bytes word)) }
{
    if word.len() > 0 {
        return push(words, Text::from_string(word));
    }
    Ok(())
}
