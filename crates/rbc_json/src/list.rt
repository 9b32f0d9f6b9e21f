//! A list while it is written.

ghost use Rattle.std.specs.Prelude.{◌≡◌, ◌++◌, ◌∷◌, [], ◌<◌, List, Some, false, length, slice_get};
ghost use Rattle.std.specs.Prelude.{IfOk, OnOk, string_bytes};
ghost use Rattle.rbc_json.specs.Json.{Json, json_text, array};
ghost use Rattle.rbc_json.specs.Lists.{IsListOf, comma_behind};

use std::alloc::{AllocError, Global};
use std::fmt::{Display, Write};

/// The element at an index.
pub(crate) fn element<T: Copy>(all: &[T], index: usize) -> T
    requires { index < length all.now }
    ensures { slice_get all.now index ≡ Some result }
{
    all[index]
}

/// The text of a list of which so many values are written.
#[derive(Drop)]
pub(crate) struct ListText {
    text: String,
    is_empty: bool,
}

impl ListText {
    /// A list of which no value is written.
    pub(crate) fn new(alloc: Global) -> Result<ListText, AllocError>
        ensures { IfOk result (IsListOf []) }
    {
        let mut text = String::new(alloc);
        text.push_str("[")?;
        Ok(ListText {
            text,
            is_empty: true,
        })
    }

    /// Adds a value, which is displayed as JSON.
    pub(crate) fn add<T: Display>(&mut self, value: &T) -> Result<(), AllocError>
        ensures { (values : List Json) (added : Json) → IsListOf values self.old
            → T.output value.now ≡ Some (json_text added)
            → OnOk result (IsListOf (values ++ added ∷ []) self.new) }
    {
        self.push_comma()?;
        write!(self.text, "{value}")
    }

    /// Adds the comma before a value that is not the first one.
    fn push_comma(&mut self) -> Result<(), AllocError>
        ensures text { OnOk result (string_bytes self.new.text
            ≡ string_bytes self.old.text ++ comma_behind self.old.is_empty) }
        ensures begun { OnOk result (self.new.is_empty ≡ false) }
    {
        if self.is_empty {
            self.is_empty = false;
            return Ok(());
        }
        self.text.push_str(",")
    }

    /// The whole list.
    pub(crate) fn ended(self) -> Result<String, AllocError>
        ensures { (values : List Json) → IsListOf values self
            → IfOk result (λ text. string_bytes text ≡ json_text (array values)) }
    {
        let mut text = self.text;
        text.push_str("]")?;
        Ok(text)
    }
}
