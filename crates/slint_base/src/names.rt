ghost use Rattle.std.specs.Prelude.{◌≡◌, IfOk, ◌↔◌, IsTrue};
ghost use Rattle.slint_base.specs.Names.{dashed, normal_name};

use crate::Memory;
use std::alloc::Global;
use std::marker::Model;

/// A name as it is compared: each `_` after its first character is a `-`. Contracts see its bytes.
#[derive(Debug, Drop)]
pub struct Name {
    text: String,
}

impl Model for Name {
    ghost use Rattle.std.specs.Prelude.{List, ℕ, string_bytes};

    ghost Value = { List ℕ };

    ghost view = { λ n. string_bytes n.text };
}

/// The character that a character after the first counts as.
fn dashed(ch: char) -> char
    ensures { result ≡ dashed ch }
{
    if ch == '_' { '-' } else { ch }
}

impl Name {
    /// The name that a text spells.
    pub fn normal(alloc: Global, text: &str) -> Result<Name, Memory>
        ensures { IfOk result (λ name. name ≡ normal_name text.now) }
    {
        let mut normal = String::new(alloc);
        let mut chars = text.chars();
        let Some(first) = chars.next() else {
            return Ok(Name { text: normal });
        };
        normal.push(first)?;
        for ch in chars {
            normal.push(dashed(ch))?;
        }
        Ok(Name { text: normal })
    }

    /// The name's text.
    pub fn as_str(&self) -> &str
        ensures { result.now ≡ self.now }
    {
        self.text.as_str()
    }

    /// Another name with the same text.
    pub fn copy(&self) -> Result<Name, Memory>
        ensures { IfOk result (λ name. name ≡ self.now) }
    {
        let text = self.text.clone()?;
        Ok(Name { text })
    }
}
